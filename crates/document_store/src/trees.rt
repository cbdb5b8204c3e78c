// The trees of a document. A node is named by how many nodes stand after it.
ghost use Rattle.std.specs.Prelude.{◌≡◌, ◌<◌, ◌≤◌, ◌+◌, true, false, length, IfOk, MatchOption};
ghost use Rattle.mix_tree.specs.Forest.{LabelledTree, forest_of};
ghost use Rattle.document_store.specs.Laid.{node_at, below, IsDocument};
ghost use Rattle.document_store.specs.Between.{before, fits, between};

use crate::Store;
use mix_tree::{Label, Tree};
use std::alloc::{AllocError, Global};

impl Store {
    /// A label of the bytes of a node's.
    pub fn copy_label(&self, alloc: Global, i: usize) -> Result<Label, AllocError>
        requires { i < length self.now }
        ensures { IfOk result (λ label. label ≡ (node_at self.now i).label) }
    {
        Label::of_text(alloc, self.label(i))
    }

    /// The position right before a node and those below it.
    #[inline]
    pub fn before(&self, i: usize) -> usize
        requires { i < length self.now }
        ensures { result ≡ before self.now i }
    {
        i.saturating_sub(self.below(i))
    }

    /// The first root of the trees between two positions; `None` where there is no tree.
    #[inline]
    pub fn first(&self, from: usize, to: usize) -> Option<usize>
        requires { to ≤ length self.now }
        ensures { MatchOption result (fits self.now from to ≡ false)
            (λ i. (fits self.now from to ≡ true) × (i + 1 ≡ to) × (from + below self.now i ≤ i)) }
    {
        if from < to && self.below(to - 1) < to - from {
            return Some(to - 1);
        }
        None
    }

    // The trees between two positions.
    fn trees(&self, alloc: Global, from: usize, mut to: usize) -> Result<Vec<Tree>, AllocError>
        requires { to ≤ length self.now }
        ensures { IfOk result (λ list. forest_of list.items ≡ between self.now from to) }
    {
        let mut list = Vec::new(alloc);
        while let Some(i) = self.first(from, to) {
            let label = self.copy_label(alloc, i)?;
            let kids = self.trees(alloc, self.before(i), i)?;
            list.push(Tree::new(label, kids))?;
            to = self.before(i);
        }
        Ok(list)
    }

    /// The tree whose document this is.
    pub fn tree(&self, alloc: Global) -> Result<Tree, AllocError>
        requires { (t : LabelledTree) × IsDocument self.now t }
        ensures { (t : LabelledTree) → IsDocument self.now t → IfOk result (λ tree. tree ≡ t) }
    {
        let root = self.len() - 2;
        let label = self.copy_label(alloc, root)?;
        let kids = self.trees(alloc, self.before(root), root)?;
        Ok(Tree::new(label, kids))
    }
}
