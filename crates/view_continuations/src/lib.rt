//! What can stand at a place of a view's text: the words, signs and kinds of token with which some text of the grammar goes on.
#![tactic(auto)]

mod candidate;
mod expected;
mod fits;
mod going_on;

pub use candidate::Candidate;
pub use expected::{Expected, expected_at};
pub use fits::fitting;
pub use going_on::{goes_on, is_whole};
