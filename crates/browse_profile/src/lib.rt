//! Profiles: what it can cost to go from stop to stop of a list, and how the profile of a list follows from those of its parts.
#![tactic(auto)]

mod bound;
mod law;
mod profile;

pub use bound::larger;
pub use law::profiles_are_sound;
pub use profile::{Most, Profile};
