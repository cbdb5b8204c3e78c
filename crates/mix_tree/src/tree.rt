// Labelled ordered trees.
ghost use Rattle.std.specs.Prelude.{◌≡◌, ℕ, nat_lt, [], ◌∷◌, option_copied};
ghost use Rattle.mix_tree.specs.Forest.{forest_of, alone, first_tree, from};
ghost use Rattle.mix_tree.specs.Place.{has_place, tree_at};

use crate::{Label, Place};
use std::marker::Model;

/// A labelled ordered tree: a label, and the subtrees in order. A tree without subtrees is a leaf.
#[derive(Drop)]
pub struct Tree {
    pub label: Label,
    pub kids: Vec<Tree>,
}

impl Model for Tree {
    ghost use Rattle.std.proofs.Common.{arith};
    ghost use Rattle.mix_tree.specs.Forest.{LabelledTree, forest_of};
    ghost use Rattle.mix_tree.specs.Codes.{coded_tree};
    ghost use Rattle.mix_tree.specs.Weight.{tree_nodes, most_le-nodes_of};

    ghost Value = { LabelledTree };

    ghost coded = { coded_tree };

    ghost view = { λ t. record { label = t.label; kids = forest_of t.kids.items } };

    ghost size = { tree_nodes };

    ghost size_decreases = { λ t h. omega (arith, most_le-nodes_of t.kids.items) };
}

impl Tree {
    /// The tree of a label and subtrees. Its list of subtrees keeps no room for more.
    pub fn new(label: Label, mut kids: Vec<Tree>) -> Tree
        ensures { result ≡ record { label = label; kids = forest_of kids.items } }
    {
        kids.shrink_to_fit();
        Tree { label, kids }
    }

    /// The label of the tree's root.
    pub fn label(&self) -> &Label
        ensures { result.now ≡ self.now.label }
    {
        &self.label
    }

    /// The subtrees of the tree, in order.
    pub fn kids(&self) -> &[Tree]
        ensures { forest_of result.now ≡ self.now.kids }
    {
        &self.kids
    }

    /// The subtree at an index; `None` where there are not so many.
    pub fn kid(&self, i: u64) -> Option<&Tree>
        ensures { option_copied result ≡ first_tree (from i self.now.kids) }
    {
        self.kids.get(i as usize)
    }

    /// How many subtrees there are.
    pub fn count(&self) -> usize
        ensures { (i : ℕ) → has_place (alone self.now) (i ∷ []) ≡ nat_lt i result }
    {
        self.kids.len()
    }

    /// The subtree that child indexes lead to; `None` where the tree has no such place.
    pub fn below(&self, steps: &[u64]) -> Option<&Tree>
        ensures { option_copied result ≡ tree_at self.now steps.now }
    {
        let mut found = self;
        for step in steps {
            found = found.kid(*step)?;
        }
        Some(found)
    }

    /// The subtree at a place; `None` where the tree has no such place.
    pub fn at(&self, p: &Place) -> Option<&Tree>
        ensures { option_copied result ≡ tree_at self.now p.now }
    {
        self.below(p.steps())
    }
}
