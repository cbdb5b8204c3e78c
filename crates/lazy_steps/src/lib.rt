//! Walks over the events of a plan's operators: from a position of an operator to its next binding.
#![tactic(auto)]

mod chain;
mod firsts;
mod gather_steps;
mod join_steps;
mod memo_steps;
mod pass_steps;
mod path_scan;
mod single_steps;
mod sort_steps;
mod sorted;
mod step;
mod steps;
mod visits;

pub use gather_steps::Gather;
pub use steps::advance;
