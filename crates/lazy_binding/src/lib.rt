//! The bindings of a plan's operators, by the positions of cursors: what stands at a position, what is read off it, and what is under it; and what is
//! read off the operators themselves, before any binding.
#![tactic(auto)]

mod gathered;
pub mod growth;
mod key;
mod labelled;
mod law;
mod link_keys;
pub mod opening;
mod parts;
mod position;
mod reading;
mod sides;
mod tuple;
mod under;
mod variable_spots;

pub use gathered::Gathered;
pub use key::{KeyPart, KeyTuple, SeenKeys};
pub use labelled::{Labelled, places, sort_labelled};
pub use law::cursors_stay;
pub use parts::{Fixed, Growing, Walk, Walked};
pub use position::{Position, Reached, inside, put, seen_up_to, share};
pub use sides::rights;
