//! The partly known document of one source, walked by spots that stay.
#![tactic(auto)]

mod buffer;
mod entry;
mod handing;
mod law;
mod spot;
mod stacks;

pub use buffer::Buffer;
pub use law::{buffers_are_kept, no_call_runs, spots_are_one, two_calls_run};
pub use spot::Spot;
