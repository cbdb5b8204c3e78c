// What makes the links over which far sources are asked.
use mix_tree::Label;
use std::alloc::{AllocError, Global};

/// What makes links over two files.
pub trait Dial<L> {
    /// A link over the two files of these names, from one of which replies are read, and to the other of which requests are written.
    /// Nothing is asked over it yet.
    fn dial(&self, alloc: Global, replies: &Label, requests: &Label) -> Result<L, AllocError>;
}
