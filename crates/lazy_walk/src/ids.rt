// Identifiers of nodes.
use lazy_site::{Rest, Site};
use std::rc::Rc;
use tree_buffer::Spot;

/// A node of a walk's document. It stands for the same node whatever is asked later. The lists that it stands in are kept as they
/// nest in the plan, and ways go down the plan, so that to let it go nests no deeper than the plan has operators. So do the elements
/// above it, each of which an operator makes with a smaller number than the one above has.
#[derive(Drop)]
pub struct WalkedNode {
    pub(crate) site: Site,
    pub(crate) above: Option<Rc<Above>>,
}

/// What is after each element above a node, in its own list, from the innermost out. Where the node lies inside a source, what is after the
/// top of its subtree comes first, with the spot of that top.
#[derive(Drop)]
pub(crate) enum Above {
    /// Of a node in the outer element's list.
    Outer {
        rest: Rc<Rest>,
        top: Option<Spot>,
    },
    /// Of a node in the list of an element below others.
    Inner {
        rest: Rc<Rest>,
        top: Option<Spot>,
        up: Rc<Above>,
    },
}
