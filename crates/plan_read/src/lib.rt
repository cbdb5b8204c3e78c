//! Plan texts: plans written by hand, and plans that were written, read as plans.
#![tactic(auto)]

mod checks;
mod comparing;
mod draft;
mod fault;
mod forms;
mod law;
mod lines;
mod names;
mod naming;
mod numbers;
mod ops;
mod parts;
mod pieces;
mod reading;
mod scope;
mod scopes;
mod variables;
mod words;

pub use fault::PlanFault;
pub use law::{
    fit_is_decided, lines_are_spelled, operators_are_written_by_parts, spelled_lines_are_read,
    whole_is_valid, words_are_spelled, written_plans_are_read,
};
pub use reading::read_plan;
