//! Nodes that are found again by their places: a node of a source's document by the place, and the nodes of evidence by the places of evidence.
#![tactic(auto)]

mod evidence;
mod known;
mod places;
mod seeking;
mod ways;

pub use places::{NodeAt, Way, child_at, seek, seek_match};
pub use seeking::sought;
