// How a document lies in memory.
ghost use Rattle.std.specs.Prelude.{◌≡◌, ◌≤◌, ◌+◌, ◌<◌, ◌++◌, ◌∷◌, [], length, true, false, nat_lt, nat_le, ◌&&◌, IfOk, OnOk, MatchOption};
ghost use Rattle.std.specs.List.{AllByRecursion};
ghost use Rattle.mix_tree.specs.Forest.{forest_of, alone};
ghost use Rattle.mix_tree.specs.Weight.{nodes_of, tree_nodes};
ghost use Rattle.lxp_memory.specs.Nodes.{AreWithin, IsPlaced, count_of, first_of, run, trees_before};
ghost use Rattle.lxp_memory.specs.Small.{AreSmall, fits_wire};
ghost use Rattle.lxp_memory.specs.Span.{has_span, hole_span, root_span, span_trees};
ghost use Rattle.lxp_memory.specs.Sums.{AreSums};

use crate::span::Span;
use crate::sums::sums_of;
use lxp_core::HoleId;
use mix_tree::{Label, Tree};
use std::alloc::{AllocError, Global};
use std::collections::VecDeque;

/// A node: its label, how many children it has, and how many nodes stand between it and the first of them.
#[derive(Drop)]
pub struct DocNode {
    pub label: Label,
    pub ahead: usize,
    pub count: usize,
}

/// The nodes of a document, level by level, so that the children of each stand side by side after it. The first one is
/// the document node, whose only child is the root.
#[derive(Drop)]
pub struct Document {
    pub(crate) nodes: Vec<DocNode>,
    // How many nodes the trees from each node on have together.
    sums: Vec<u128>,
    ghost within: { AreWithin nodes.items 0 },
    ghost rooted: { count_of nodes.items 0 ≡ 1 },
    ghost summed: { AreSums nodes.items sums.items },
}

// The document node above a root.
fn above(alloc: Global, root: Tree) -> Result<Tree, AllocError>
    ensures { IfOk result (λ t. t ≡ record { label = []; kids = alone root }) }
{
    let label = Label::of_text(alloc, b"")?;
    Ok(Tree::new(label, vec![in alloc; root]?))
}

// Places a tree's root after the nodes, and its children after the trees that are still to be placed.
fn place(nodes: &mut Vec<DocNode>, queue: &mut VecDeque<Tree>, tree: Tree) -> Result<(), AllocError>
    ensures { OnOk result (IsPlaced tree nodes.old.items queue.old.items nodes.new.items queue.new.items) }
{
    let Tree { label, kids } = tree;
    nodes.push(DocNode {
        label,
        ahead: queue.len(),
        count: kids.len(),
    })?;
    for kid in kids {
        queue.push_back(kid)?;
    }
    Ok(())
}

// The nodes of the document with a root, level by level. No tree has more nodes than there are.
fn placed(alloc: Global, root: Tree) -> Result<Vec<DocNode>, AllocError>
    ensures within { IfOk result (λ nodes. AreWithin nodes.items 0) }
    ensures rooted { IfOk result (λ nodes. count_of nodes.items 0 ≡ 1) }
    ensures document { IfOk result (λ nodes. span_trees nodes.items root_span ≡ alone root) }
    ensures bound { IfOk result (λ nodes. AllByRecursion (λ t. tree_nodes t ≤ length nodes.items) (trees_before nodes.items [])) }
    ensures small { IfOk result (λ nodes. fits_wire root ≡ true → AreSmall nodes.items) }
{
    let mut nodes = Vec::new(alloc);
    let mut queue = VecDeque::new(alloc);
    queue.push_back(above(alloc, root)?)?;
    while let Some(tree) = queue.pop_front() {
        place(&mut nodes, &mut queue, tree)?;
    }
    nodes.shrink_to_fit();
    Ok(nodes)
}

impl Document {
    ghost use Rattle.lxp_memory.specs.DocumentHoles.{document_forest, root_hole};

    /// The document with a root. Where the root fits a wire, so does the list below each node.
    pub fn new(alloc: Global, root: Tree) -> Result<Document, AllocError>
        ensures document { IfOk result (λ d. document_forest d root_hole ≡ alone root) }
        ensures small { IfOk result (λ d. fits_wire root ≡ true → AreSmall d.nodes.items) }
    {
        let nodes = placed(alloc, root)?;
        let sums = sums_of(alloc, &nodes)?;
        Ok(Document { nodes, sums })
    }

    /// The hole that stands for the root.
    pub fn root_hole(&self) -> HoleId
        ensures { result ≡ root_hole }
    {
        let root = Span {
            node: 0,
            from: 0,
            to: 1,
        };
        root.hole()
    }

    /// The number of a node's first child.
    pub(crate) fn first(&self, node: usize) -> usize
        requires { node < length self.now.nodes.items }
        ensures first { result ≡ first_of self.now.nodes.items node }
        ensures after { node < result }
        ensures within { result + count_of self.now.nodes.items node ≤ length self.now.nodes.items }
    {
        node + 1 + self.nodes[node].ahead
    }

    // Whether there is a node of a number, and it has at least so many children.
    fn has_children(&self, node: usize, count: usize) -> bool
        ensures { result ≡ nat_lt node (length self.now.nodes.items) && nat_le count (count_of self.now.nodes.items node) }
    {
        match self.nodes.get(node) {
            Some(node) => count <= node.count,
            None => false,
        }
    }

    /// The children that a hole stands for; `None` where the document has no such children.
    pub(crate) fn span(&self, hole: HoleId) -> Option<Span>
        ensures { let has = has_span self.now.nodes.items in
            MatchOption result (has (hole_span hole) ≡ false) (λ span. (span ≡ hole_span hole) × (has span ≡ true)) }
    {
        let span = Span::of_hole(hole);
        if span.from <= span.to && self.has_children(span.node, span.to) {
            return Some(span);
        }
        None
    }

    /// How many nodes the trees of some children have. Constant time.
    pub(crate) fn weight(&self, span: Span) -> u128
        requires { has_span self.now.nodes.items span ≡ true }
        ensures { result ≡ nodes_of (span_trees self.now.nodes.items span) }
    {
        let first = self.first(span.node);
        self.sums[first + span.from] - self.sums[first + span.to]
    }
}
