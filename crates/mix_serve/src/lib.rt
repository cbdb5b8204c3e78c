//! Sources that are served over a stream of requests: these are taken of an input, and the replies are written to a sink.
#![tactic(auto)]

mod fault;
mod laws;
mod serving;

pub use fault::ServeFault;
pub use laws::{ends_are_apart, pieces_are_answered_as_one};
pub use serving::{MOST_TAKEN, ROOM, Served, serve_requests};
