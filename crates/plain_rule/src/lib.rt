//! The finished document of a rule, computed slowly and plainly from its definition: what faster ways are measured by.
#![tactic(auto)]

mod binding;
mod describing;
mod documents;
mod finished;
mod grouping;
mod instances;
mod matching;
mod node;
mod ordering;
mod selecting;
mod tuples;

pub use binding::Binding;
pub use documents::{kids_of, label_of};
pub use finished::{bindings, finished_document};
pub use grouping::same_node;
pub use instances::{copy_tree, copy_trees};
pub use matching::matches;
pub use node::Node;
