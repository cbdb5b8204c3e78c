// The nodes of variables that were found.
ghost use Rattle.std.specs.Prelude.{◌≡◌, ◌==◌, ℕ, Some, None, OnOk, cond};
ghost use Rattle.lazy_seek.specs.Known.{known_in};

use crate::places::NodeAt;
use mix_tree::Var;
use std::alloc::{AllocError, Global};
use std::collections::BTreeMap;

/// A node of a variable, and the index of its place among the places by which nodes are sought; a document node has none there.
#[derive(Clone, Copy)]
pub struct Known {
    pub node: NodeAt,
    pub place: Option<usize>,
}

/// The nodes of variables, by the variables' numbers.
#[derive(Drop)]
pub struct KnownNodes {
    vars: BTreeMap<u32, Known>,
}

impl KnownNodes {
    /// No nodes.
    pub fn new(alloc: Global) -> KnownNodes
        ensures { (v : ℕ) → known_in result v ≡ None }
    {
        KnownNodes {
            vars: BTreeMap::new(alloc),
        }
    }

    /// The node of a variable, where it was found.
    pub fn of(&self, var: Var) -> Option<Known>
        ensures { result ≡ known_in self.now var }
    {
        self.vars.get(&var.number()).copied()
    }

    /// Puts the node of a variable.
    pub fn put(&mut self, var: Var, known: Known) -> Result<(), AllocError>
        ensures { OnOk result ((v : ℕ) → known_in self.new v ≡ cond (var == v) (Some known) (known_in self.old v)) }
    {
        self.vars.insert(var.number(), known)?;
        Ok(())
    }
}
