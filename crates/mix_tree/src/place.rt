// Places: where a node stands in a tree.
ghost use Rattle.std.specs.Prelude.{◌≡◌};

use std::marker::Model;

/// A place in a tree: the child indexes that lead to it from the root. The empty place is the root.
#[derive(Drop)]
pub struct Place {
    steps: Vec<u64>,
}

impl Model for Place {
    ghost use Rattle.std.specs.Prelude.{List, ℕ};

    ghost Value = { List ℕ };

    ghost view = { λ p. p.steps.items };
}

impl Place {
    /// The place of these child indexes.
    pub fn new(steps: Vec<u64>) -> Place
        ensures { result ≡ steps.items }
    {
        Place { steps }
    }

    /// The child indexes, from the root down.
    pub fn steps(&self) -> &[u64]
        ensures { result.now ≡ self.now }
    {
        &self.steps
    }
}
