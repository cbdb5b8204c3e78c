//! Where a byte of a text stands: its line and its column, and that line with a mark below it.
#![tactic(auto)]

mod place;
mod shown;

pub use place::{TextPlace, place_at};
pub use shown::place_text;
