//! Refusals of views and catalogs in words: where in the file, and what could stand there.
#![tactic(auto)]

mod catalog;
mod hint;
mod listing;
mod view;

pub use catalog::catalog_words;
pub use view::view_words;
