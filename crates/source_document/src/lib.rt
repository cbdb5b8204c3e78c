//! Documents that are mounted as sources: what one means over tables, and the trait that each kind meets.
#![tactic(auto)]

mod document;

pub use document::Document;
