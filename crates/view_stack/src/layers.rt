// Views over sources, and what was served of them.
use lazy_walk::{Walk, WalkedNode};
use mix_tree::Label;

/// A node that was served: the number of its view, and the identifier of the node there.
#[derive(Drop)]
pub struct Served {
    pub(crate) view: usize,
    pub(crate) node: WalkedNode,
}

/// A node that was found, and its label.
#[derive(Drop)]
pub struct Found {
    pub(crate) label: Label,
    pub(crate) node: WalkedNode,
}

/// Views over sources, each where it is mounted, the nodes that were served of them, and how many fills were asked.
#[derive(Drop)]
pub struct Layers<S> {
    pub(crate) base: S,
    pub(crate) views: Vec<Option<Walk>>,
    pub(crate) served: Vec<Served>,
    pub(crate) fills: u64,
}
