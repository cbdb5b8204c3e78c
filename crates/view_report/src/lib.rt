//! What an accepted view comes to, in words: its paths that lead nowhere, its class, what its lists cost, and how its sources are read.
#![tactic(auto)]

mod class;
mod report;
mod sources;

pub use report::view_report;
