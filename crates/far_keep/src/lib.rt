//! Sources of other machines: the trait `Fars`, such sources in memory, and none.
#![tactic(auto)]

mod far_source;
mod fars;
mod mem_far;
mod mem_fars;
mod no_fars;

pub use far_source::{FarSource, far_root, same_far};
pub use fars::Fars;
pub use mem_far::MemFar;
pub use mem_fars::MemFars;
pub use no_fars::NoFars;
