//! Where a reply ends in a stream of bytes that come in any pieces.
#![tactic(auto)]

mod digits;
mod frame;

pub use frame::{End, Frame, Taken, pieces_are_one_text, replies_are_framed};
