// Different labels, by their numbers.
ghost use Rattle.std.specs.Prelude.{◌≡◌, [], IsTrue, IfOk, OnErr};
ghost use Rattle.join_memo.specs.Places.{IsKnown, IsNumber, IsPut};

use indexmap::IndexSet;
use mix_tree::{Label, same_label};
use std::alloc::{AllocError, Global};
use std::marker::Model;

/// Different labels in the order in which they came, found by their hash.
#[derive(Drop)]
pub struct KnownLabels {
    labels: IndexSet<Label>,
}

impl Model for KnownLabels {
    ghost use Rattle.std.specs.Prelude.{List, ℕ};

    ghost Value = { List (List ℕ) };

    ghost view = { λ known. known.labels.keys };
}

impl KnownLabels {
    /// A set of no labels.
    pub(crate) fn new(alloc: Global) -> KnownLabels
        ensures { result ≡ [] }
    {
        KnownLabels {
            labels: IndexSet::new(alloc),
        }
    }

    /// The number of a label.
    pub(crate) fn number(&self, key: &Label) -> Option<usize>
        ensures { IsNumber self.now key.now result }
    {
        self.labels.get_index_of(key)
    }

    /// Whether a label has this number.
    pub(crate) fn has(&self, number: usize, key: &Label) -> bool
        ensures { IsTrue result → IsKnown self.now key.now number }
    {
        match self.labels.get_index(number) {
            Some(label) => same_label(label, key),
            None => false,
        }
    }

    /// The number of a label, and whether it is new: then it comes after the others.
    pub(crate) fn put(&mut self, alloc: Global, key: &Label) -> Result<(usize, bool), AllocError>
        ensures ok { IfOk result (λ r. IsPut self.old key.now r.0 r.1 self.new) }
        ensures err { OnErr result (self.new ≡ self.old) }
    {
        Ok(self.labels.insert_full(key.copy(alloc)?)?)
    }
}
