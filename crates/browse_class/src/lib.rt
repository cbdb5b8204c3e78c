//! The class of a plan: what a step in its document can cost at most, over sources whose documents have given shapes.
#![tactic(auto)]

mod class;
mod law;

pub use class::Class;
pub use law::{events_are_as_known, tolls_are_bounded};
