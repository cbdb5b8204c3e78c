//! Paths of a plan that lead nowhere, in words: each with what is there at the place from which it starts.
#![tactic(auto)]

mod leads;
mod path;
mod told;

pub use told::path_words;
