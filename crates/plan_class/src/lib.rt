//! The class of a plan, and the profiles of its operators' events and of its lists, computed from the shapes of its sources.
#![tactic(auto)]

mod classing;
mod domain;
mod domains;
mod known;
mod levels;
mod operators;
mod profiles;
mod runs;
mod so_far;
mod stages;
mod visit;

pub use classing::class_of;
pub use profiles::{Profiles, profiles_of};
