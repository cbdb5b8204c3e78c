//! Documents as they lie in memory: the bytes of the labels one after another, and for each node where its label ends and how
//! many nodes are below it; and texts alone, in the same way.
#![tactic(auto)]

mod room;
mod spots;
mod store;
mod texts;
mod trees;

pub use store::Store;
pub use texts::Texts;
