// What is kept of a text that was followed: spots and no cursor.
use crate::evidence::Evidence;
use lazy_seek::NodeAt;
use node_text::NodeData;

/// What a node shows without memory.
#[derive(Clone, Copy)]
pub enum Shown {
    /// A source's node, with what is below it.
    Whole(NodeAt),
    /// A leaf with the label of a source's node.
    Leaf(NodeAt),
    /// An element: the number of the operator that makes it.
    Element(u32),
    /// A text: the number of the operator in which it is written, and its index there.
    Text(u32, usize),
}

/// A text that was followed to its node: what it says, for each level evidence of the member to which it leads, if it leads to one, and what the node shows.
#[derive(Drop)]
pub struct Mark {
    pub data: NodeData,
    pub members: Vec<Option<Evidence>>,
    pub shown: Shown,
}
