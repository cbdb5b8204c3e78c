//! The texts of a wire: requests and replies as bytes, written and read.
#![tactic(auto)]

mod building;
mod fault;
mod numbers;
mod reply;
mod request;
mod scanning;
mod utf8;
mod writing;

pub use fault::ReplyFault;
pub use numbers::push_u32;
pub use reply::{
    Hole, Reply, WireTree, read_lists_are_small, read_reply, replies_are_apart, write_reply,
};
pub use request::{Request, RequestRead, read_request, requests_are_apart, write_request};
pub use writing::{push_hole, push_label};
