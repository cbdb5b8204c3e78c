// Trees of which parts are not yet known.
use mix_tree::Label;

/// Three words by which a source knows a hole again. They mean nothing to anybody else.
#[derive(Clone, Copy, Debug, PartialEq, Eq)]
pub struct HoleId {
    pub words: [u64; 3],
}

/// A member of a list of trees with holes: a node with such a list below it, or a hole, which stands for trees that
/// are still to be asked for, maybe none.
#[derive(Drop)]
pub enum OpenTree {
    Node { label: Label, kids: Vec<OpenTree> },
    Hole(HoleId),
}
