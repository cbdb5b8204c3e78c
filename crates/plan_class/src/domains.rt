// What the values of the variables of operators can be.
ghost use Rattle.std.specs.Prelude.{◌≡◌, ◌==◌, ◌++◌, ◌∷◌, ℕ, [], List, Some, None, OnOk, cond};
ghost use Rattle.std.specs.BTreeMap.{get};
ghost use Rattle.std.specs.Option.{option_or};
ghost use Rattle.std.specs.Ordering.{nat_cmp};
ghost use Rattle.plan_class.specs.Known.{Known as KnownValue};
ghost use Rattle.plan_class.specs.VarDomains.{domain_in, AreDomains};

use crate::domain::{Domain, one_item};
use crate::known::Known;
use mix_tree::Var;
use std::alloc::{AllocError, Global};
use std::collections::BTreeMap;

/// What the values of variables can be, each by the first operator that binds it anew.
#[derive(Drop)]
pub struct Domains {
    vars: BTreeMap<u32, Domain>,
}

impl Domains {
    /// Those of no operators.
    pub fn new(alloc: Global) -> Domains
        ensures { AreDomains result [] }
    {
        Domains {
            vars: BTreeMap::new(alloc),
        }
    }

    /// What the values of a variable can be.
    pub fn of(&self, var: Var) -> Domain
        ensures { result ≡ domain_in self.now var }
    {
        match self.vars.get(&var.number()) {
            Some(domain) => *domain,
            None => Domain::of_values(one_item()),
        }
    }

    // Adds the domain of a variable that has none. `Err`: memory.
    fn add(&mut self, var: Var, domain: Domain) -> Result<(), AllocError>
        ensures { OnOk result ((v : ℕ) → get nat_cmp self.new.vars v ≡ option_or (get nat_cmp self.old.vars v) (cond (var == v) (Some domain) None)) }
    {
        if self.vars.contains_key(&var.number()) {
            return Ok(());
        }
        self.vars.insert(var.number(), domain)?;
        Ok(())
    }

    /// Adds what an operator binds anew. `Err`: memory.
    pub fn push(&mut self, one: &Known) -> Result<(), AllocError>
        ensures { (known : List KnownValue) → AreDomains self.old known → OnOk result (AreDomains self.new (known ++ one.now ∷ [])) }
    {
        match one.out {
            Some(out) => self.add(out, one.domain),
            None => Ok(()),
        }
    }
}
