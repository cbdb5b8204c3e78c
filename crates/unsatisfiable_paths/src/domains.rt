// Where the nodes of the variables of operators can lie.
ghost use Rattle.std.specs.Prelude.{◌≡◌, ℕ, [], OnOk};
ghost use Rattle.std.specs.BTreeMap.{get};
ghost use Rattle.std.specs.Option.{option_or};
ghost use Rattle.std.specs.Ordering.{nat_cmp};
ghost use Rattle.unsatisfiable_paths.specs.NodeDomains.{no_nodes, nodes_in, bound_at, AreNodeDomains};

use browse_visit::Sorts;
use mix_tree::Var;
use std::alloc::{AllocError, Global};
use std::collections::BTreeMap;

/// Where the nodes of a variable can lie: their source, and the sorts among which they are; none where its values are no nodes.
#[derive(Clone, Copy)]
pub struct NodeDomain {
    pub source: u32,
    pub sorts: Sorts,
}

impl NodeDomain {
    /// Values that are no nodes.
    pub fn none() -> NodeDomain
        ensures { result ≡ no_nodes }
    {
        NodeDomain {
            source: 0,
            sorts: Sorts::none(),
        }
    }
}

/// Where the nodes of variables can lie, of each as the first operator says that binds it anew.
#[derive(Drop)]
pub struct NodeDomains {
    vars: BTreeMap<u32, NodeDomain>,
}

impl NodeDomains {
    /// Those of no operators.
    pub fn new(alloc: Global) -> NodeDomains
        ensures { AreNodeDomains result [] }
    {
        NodeDomains {
            vars: BTreeMap::new(alloc),
        }
    }

    /// Where the nodes of a variable can lie.
    pub fn of(&self, var: Var) -> NodeDomain
        ensures { result ≡ nodes_in self.now var }
    {
        match self.vars.get(&var.number()) {
            Some(nodes) => *nodes,
            None => NodeDomain::none(),
        }
    }

    /// Adds a variable that is bound anew, if there is one, and where its nodes can lie. `Err`: memory.
    pub fn push(&mut self, bound: Option<(Var, NodeDomain)>) -> Result<(), AllocError>
        ensures { OnOk result ((v : ℕ) → get nat_cmp self.new.vars v ≡ option_or (get nat_cmp self.old.vars v) (bound_at bound v)) }
    {
        let Some((var, nodes)) = bound else {
            return Ok(());
        };
        if self.vars.contains_key(&var.number()) {
            return Ok(());
        }
        self.vars.insert(var.number(), nodes)?;
        Ok(())
    }
}
