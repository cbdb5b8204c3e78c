//! Why a page of a table is not given, in words: the trait `PageReasons`, which tables in memory meet too.
#![tactic(auto)]

mod memory;
mod reasons;

pub use reasons::PageReasons;
