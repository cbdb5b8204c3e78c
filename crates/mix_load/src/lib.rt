//! A large input made in memory: the CSV text of many people, its document, the view of their names, and the count of the nodes of a printed tree.
#![tactic(auto)]

mod classing;
mod nodes;
mod people;
mod source;
mod view;
mod visit;

pub use classing::names_class;
pub use nodes::count_nodes;
pub use people::people_text;
pub use source::people_document;
pub use view::names_rule;
pub use visit::{Visit, visit_people};
