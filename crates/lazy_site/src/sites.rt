// Sites: where nodes of the document are found again, and what is after them.
ghost use Rattle.std.specs.Prelude.{◌≡◌, IfOk};

use crate::ways::Ways;
use lazy_plan::Cursor;
use std::alloc::{AllocError, Global};
use std::rc::Rc;
use tree_buffer::Spot;

/// What a variable holds, and where it is made: a node of a source, an element of an operator over a binding of its input, a
/// concatenation over one, all bindings of an operator's input, or those of a group from its first member on, which has this number
/// among the groups of its operator.
#[derive(Drop)]
pub(crate) enum Origin {
    Node(u32, Spot),
    Element {
        op: u32,
        at: Cursor,
    },
    Joined {
        op: u32,
        at: Cursor,
    },
    All {
        op: u32,
    },
    Group {
        op: u32,
        first: Cursor,
        number: usize,
    },
}

/// A node apart from what is after it: one of a source with all below it, an element, a leaf with the label of a source's node, or
/// one with the text of a piece.
#[derive(Drop)]
pub enum Head {
    Whole(u32, Spot),
    Built { op: u32, at: Cursor },
    Leaf(u32, Spot),
    Text { op: u32, index: usize },
}

/// What is after a node: what is left of a list, and then of the lists around it.
#[derive(Drop)]
pub enum Rest {
    /// Nothing is left.
    End,
    /// The pieces of a concatenation from one on, and ways to values of those before.
    Pieces {
        op: u32,
        at: Cursor,
        next: usize,
        ways: Ways,
        up: Rc<Rest>,
    },
    /// The bindings of an operator's input after a cursor, or all of them.
    Members {
        op: u32,
        at: Option<Cursor>,
        up: Rc<Rest>,
    },
    /// The bindings of a group after the member at a place, counted from 0. The group begins at its first member, and has this number among the
    /// groups of its operator.
    Group {
        op: u32,
        first: Cursor,
        number: usize,
        at: Cursor,
        place: usize,
        up: Rc<Rest>,
    },
}

/// How a node is found again.
#[derive(Drop)]
pub enum Site {
    /// The root.
    Root,
    /// A node below one of a source.
    Inside(u32, Spot),
    /// A member of a list that the plan makes.
    Item { head: Head, rest: Rc<Rest> },
}

/// What one turn over a rest comes to: nothing is left, a node, or another rest of the same trees.
#[derive(Drop)]
pub(crate) enum Turn {
    Over,
    At(Site),
    On(Rc<Rest>),
}

/// The pieces of a concatenation from one on, over a binding of its operator's input.
#[derive(Clone, Copy)]
pub(crate) struct PiecesFrom<'a> {
    pub(crate) op: u32,
    pub(crate) at: &'a Cursor,
    pub(crate) next: usize,
}

/// The bindings of an operator's input after a cursor, or all of them.
#[derive(Clone, Copy)]
pub(crate) struct MembersFrom<'a> {
    pub(crate) op: u32,
    pub(crate) at: &'a Option<Cursor>,
}

/// A rest that can be shared.
pub(crate) fn put(alloc: Global, rest: Rest) -> Result<Rc<Rest>, AllocError>
    ensures { IfOk result (λ r. r.value ≡ rest) }
{
    Ok(Rc::new(alloc, rest)?)
}

/// The same rest once more.
pub fn share(rest: &Rc<Rest>) -> Result<Rc<Rest>, AllocError>
    ensures { IfOk result (λ r. r.value ≡ rest.now.value) }
{
    rest.clone()
}
