//! Sources that answer requests which come as bytes: a server of sources, and links to sources that reply.
#![tactic(auto)]

mod answering;
mod begun;
mod fixed_link;
mod link;
mod mem_link;
mod serve;
mod server;
mod serving;

pub use fixed_link::FixedLink;
pub use link::{Link, LinkFault, told_replies_are_read};
pub use mem_link::MemLink;
pub use server::{Fed, Server, pieces_are_one_stream};
