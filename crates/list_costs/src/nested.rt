// The lists that stand in the values of variables.
ghost use Rattle.std.specs.Prelude.{◌≡◌, ◌==◌, ℕ, [], OnOk, cond};
ghost use Rattle.list_costs.specs.Lists.{lists_in};

use crate::answer_list::AnswerList;
use mix_tree::Var;
use std::alloc::{AllocError, Global};
use std::collections::BTreeMap;

/// The lists that stand in the values of variables, of each variable in the order of the answer.
#[derive(Drop)]
pub struct NestedLists {
    vars: BTreeMap<u32, Vec<AnswerList>>,
}

impl NestedLists {
    /// Those of no variables.
    pub fn new(alloc: Global) -> NestedLists
        ensures { (v : ℕ) → lists_in result v ≡ [] }
    {
        NestedLists {
            vars: BTreeMap::new(alloc),
        }
    }

    /// The lists in the values of a variable.
    pub fn of(&self, var: Var) -> &[AnswerList]
        ensures { result.now ≡ lists_in self.now var }
    {
        match self.vars.get(&var.number()) {
            Some(lists) => lists.as_slice(),
            None => &[],
        }
    }

    /// Says which lists are in the values of a variable. `Err`: memory.
    pub fn insert(&mut self, var: Var, lists: Vec<AnswerList>) -> Result<(), AllocError>
        ensures { OnOk result ((v : ℕ) → lists_in self.new v ≡ cond (var == v) lists.items (lists_in self.old v)) }
    {
        self.vars.insert(var.number(), lists)?;
        Ok(())
    }
}
