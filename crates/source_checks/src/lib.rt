//! What the sources of a view are today, in words: how large a file is that is read whole or why it is refused, and whether a table gives a page.
#![tactic(auto)]

mod beside;
mod file;
mod sources;
mod table;
mod texts;
mod words;

pub use sources::check_sources;
