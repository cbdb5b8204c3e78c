// Labels as they are read.
use crate::Label;

/// What stands at a place of a text.
#[derive(Drop)]
pub enum LabelRead {
    /// A label, and the place after its spelling.
    Got { label: Label, end: usize },
    /// The place of the first byte with which no spelling goes on.
    Unexpected(usize),
    /// The text ends where a character or a closing quote must come.
    Ends,
}
