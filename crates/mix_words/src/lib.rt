//! The lines and words of a text that is read line by line, as a script or a catalog.
#![tactic(auto)]

pub mod lines;
pub mod places;
pub mod words;
