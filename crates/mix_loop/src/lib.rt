//! The sources of a view behind a link in memory, read as sources after it.
#![tactic(auto)]

mod looped;

pub use looped::{close_loop, open_loop};
