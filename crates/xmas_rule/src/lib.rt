//! Rules as values, and what they mean: the bindings of a body, groups and instances, the finished document.
#![tactic(auto)]

mod condition;
mod law;
mod rule;
mod template;

pub use condition::{Cond, OrderBy};
pub use law::{one_finished_document, tuples_are_bindings};
pub use rule::Rule;
pub use template::{Item, Template};
