//! The text of an identifier followed over the sources: from the outer element's list, level by level, to the node that it names.
#![tactic(auto)]

mod agreeing;
mod below;
mod choosing;
mod ends;
mod evidence;
mod following;
mod law;
mod levels;
mod mark;
mod members;
mod outer;
mod way;

pub use agreeing::agrees;
pub use evidence::Evidence;
pub use law::{followed_are_named, marks_show, marks_stay};
pub use levels::{Led, follow_level};
pub use mark::{Mark, Shown};
pub use members::{Group, member};
pub use outer::followed;
