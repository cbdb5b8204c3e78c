// How much of a text leads to a node on its way.
use crate::ids::WalkedNode;

/// How much of a text leads to a node on its way: so many of its levels, and behind these so many steps of the place below.
#[derive(Clone, Copy)]
pub struct Stage {
    pub levels: usize,
    pub steps: usize,
}

/// A node on the way to the one that a text names, and how much of the text leads to it.
#[derive(Drop)]
pub struct Passed {
    pub node: WalkedNode,
    pub stage: Stage,
}
