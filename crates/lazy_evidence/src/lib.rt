//! The evidence of a position's binding: the nodes at its parts, hidden ones too, and their places.
#![tactic(auto)]

mod law;
mod visited;

pub use law::{
    all_are_among, groups_are_among, next_are_among, parts_are_among, positions_have_evidence,
};
pub use visited::evidence;
