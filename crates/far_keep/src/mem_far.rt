// A source of another machine, in memory.
ghost use Rattle.std.specs.Prelude.{◌≡◌, ◌≤◌, ◌^◌, IfOk, MatchOption, true};
ghost use Rattle.mix_tree.specs.Forest.{alone, forest_of};
ghost use Rattle.mix_tree.specs.Weight.{nodes_of, tree_nodes};
ghost use Rattle.lxp_core.specs.Open.{nil, without_holes};
ghost use Rattle.lxp_core.specs.Plain.{plain, put};
ghost use Rattle.far_keep.specs.Listed.{is_small, names_call};

use crate::FarSource;
use lxp_core::OpenTree;
use lxp_memory::fit_wire;
use mix_tree::Tree;
use std::alloc::{AllocError, Global};
use std::slice;

/// A far source in memory: what names it, its document, and the numbers of the fills of the document's hole that fail, counted from 1.
#[derive(Drop)]
pub struct MemFar {
    pub far: FarSource,
    pub document: Tree,
    pub failing: Vec<u64>,
}

// A tree without holes.
#[cycle(opening)]
fn open_tree(alloc: Global, tree: &Tree) -> Result<OpenTree, AllocError>
    ensures { IfOk result (λ t. put t nil ≡ without_holes (alone tree.now)) }
{
    let kids = open_list(alloc, tree.kids())?;
    let label = tree.label().copy(alloc)?;
    Ok(OpenTree::Node { label, kids })
}

// A list of trees without holes.
#[cycle(opening)]
fn open_list(alloc: Global, trees: &[Tree]) -> Result<Vec<OpenTree>, AllocError>
    ensures { IfOk result (λ list. plain list.items ≡ without_holes (forest_of trees.now)) }
{
    let mut list = Vec::new(alloc);
    'trees: for tree in trees {
        list.push(open_tree(alloc, tree)?)?;
    }
    Ok(list)
}

// How many nodes trees have; `None` where there are 2^128 or more.
fn count_nodes(trees: &[Tree]) -> Option<u128>
    ensures { let all = nodes_of (forest_of trees.now) in MatchOption result (2 ^ 128 ≤ all) (λ count. count ≡ all) }
{
    let mut count: u128 = 0;
    'trees: for tree in trees {
        let below = count_nodes(tree.kids())?;
        count = count.checked_add(below)?.checked_add(1)?;
    }
    Some(count)
}

impl MemFar {
    /// Whether the document is small enough for a wire: it has at most 200 levels, and each label and each list in it is shorter than
    /// 2^32; and whether it has fewer than 2^128 nodes.
    pub fn is_small(&self) -> bool
        ensures { result ≡ is_small self.now }
    {
        let document = slice::from_ref(&self.document);
        fit_wire(document) && count_nodes(document).is_some()
    }

    /// Whether the fill of a number, counted from 1, is to fail.
    pub(crate) fn names(&self, call: u64) -> bool
        ensures { result ≡ names_call self.now call }
    {
        self.failing.contains(&call)
    }

    /// The whole document, as a list without holes.
    pub(crate) fn list(&self, alloc: Global) -> Result<Vec<OpenTree>, AllocError>
        ensures { IfOk result (λ list. plain list.items ≡ without_holes (alone self.now.document)) }
    {
        open_list(alloc, slice::from_ref(&self.document))
    }

    /// How many nodes the document has.
    pub(crate) fn weight(&self) -> Option<u128>
        requires { is_small self.now ≡ true }
        ensures { result ≡ Some (tree_nodes self.now.document) }
    {
        count_nodes(slice::from_ref(&self.document))
    }
}
