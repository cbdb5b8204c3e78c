// The holes that a remote source is known to have, and their weights.
ghost use Rattle.std.specs.Prelude.{◌≡◌, ◌∷◌, ◌++◌, [], take, length, None, OnOk, OnErr};
ghost use Rattle.lxp_remote.specs.Known.{weight_in};

use indexmap::IndexMap;
use lxp_core::HoleId;
use std::alloc::{AllocError, Global};
use std::marker::Model;

/// Holes and their weights in the order in which they came, each once, found by their hash.
#[derive(Drop)]
pub struct KnownHoles {
    weights: IndexMap<[u64; 3], u128>,
}

impl Model for KnownHoles {
    ghost use Rattle.std.specs.Prelude.{List, ℕ};

    ghost Value = { List (List ℕ × ℕ) };

    ghost view = { λ k. k.weights.entries };
}

impl KnownHoles {
    /// No holes.
    pub fn new(alloc: Global) -> KnownHoles
        ensures { result ≡ [] }
    {
        KnownHoles {
            weights: IndexMap::new(alloc),
        }
    }

    /// How many holes are known.
    pub fn len(&self) -> usize
        ensures { result ≡ length self.now }
    {
        self.weights.len()
    }

    /// The weight of a hole; `None` where it isn't known.
    pub fn weight(&self, hole: HoleId) -> Option<u128>
        ensures { result ≡ weight_in self.now hole }
    {
        self.weights.get(&hole.words).copied()
    }

    /// Makes a hole known that wasn't.
    pub fn put(&mut self, hole: HoleId, weight: u128) -> Result<(), AllocError>
        requires { weight_in self.old hole ≡ None }
        ensures put { OnOk result (self.new ≡ self.old ++ (hole.words, weight) ∷ []) }
        ensures kept { OnErr result (self.new ≡ self.old) }
    {
        self.weights.insert(hole.words, weight)?;
        Ok(())
    }

    /// Forgets all holes but the first ones.
    pub fn truncate(&mut self, count: usize)
        ensures { self.new ≡ take count self.old }
    {
        self.weights.truncate(count);
    }
}
