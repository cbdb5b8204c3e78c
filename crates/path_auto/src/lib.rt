//! The automaton of a path: what a list of labels leads to, and the visit of trees along it.
#![tactic(auto)]

mod auto;
mod law;
mod sets;
mod states;

pub use auto::Auto;
pub use law::{bindings_are_matches, visits_are_matches};
pub use states::StateSet;
