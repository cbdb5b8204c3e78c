// What a buffer keeps of a node.
use lxp_core::OpenTree;
use mix_tree::Label;

/// The most nodes of a buffer: each number of one, and how many children one has, lies in 32 bits.
pub(crate) const MOST: usize = 4_294_967_295;

/// A node that was handed out.
#[derive(Drop)]
pub struct Entry {
    pub(crate) label: Label,
    // The node above, and the index among its children; 0 at the document node.
    pub(crate) parent: u32,
    pub(crate) index: u32,
    // How many children were handed out, and the first of them.
    pub(crate) count: u32,
    pub(crate) first: u32,
    // The next sibling, where it was handed out.
    pub(crate) next: u32,
    // The other children, the next one last.
    pub(crate) rest: Vec<OpenTree>,
}
