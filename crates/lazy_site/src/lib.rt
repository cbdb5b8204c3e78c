//! Where a node of a plan's document is found again, and the steps from there.
#![tactic(auto)]

mod down;
mod entering;
mod fetching;
mod law;
mod members;
mod origin;
mod sites;
mod turning;
mod walking;
mod ways;

pub use fetching::label_of;
pub use law::{levels_open, rests_tell_indexes};
pub use sites::{Head, Rest, Site, share};
pub use walking::{first_child, next_sibling};
pub use ways::{Way, Ways};
