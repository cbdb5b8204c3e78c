//! The boundary to sources: trees with holes, and what a source promises.
#![tactic(auto)]

mod fault;
mod open_tree;
mod sources;
mod weighed;

pub use fault::{SourceFault, WalkFault};
pub use open_tree::{HoleId, OpenTree};
pub use sources::Sources;
pub use weighed::Weighed;
