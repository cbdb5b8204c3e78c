// What is known of the operators so far.
ghost use Rattle.std.specs.Prelude.{◌≡◌, ◌++◌, ◌∷◌, ℕ, [], List, None, Some, IfOk, OnOk, slice_set};
ghost use Rattle.plan_class.specs.Known.{Known as KnownValue};
ghost use Rattle.plan_class.specs.Slots.{kept_at, slot_known};
ghost use Rattle.plan_class.specs.VarDomains.{AreDomains};

use crate::domains::Domains;
use crate::known::Known;
use std::alloc::{AllocError, Global};

/// What is known of the operators so far that are no input yet, each by its number, and what the values of all variables can be.
#[derive(Drop)]
pub struct SoFar {
    pub slots: Vec<Option<Known>>,
    pub domains: Domains,
}

// Empties a slot; nothing is known where it was empty.
fn emptied(alloc: Global, slot: &mut Option<Known>) -> Known
    ensures known { result ≡ slot_known (Some slot.old) }
    ensures slot { slot.new ≡ None }
{
    match slot.take() {
        Some(known) => known,
        None => Known::none(alloc),
    }
}

impl SoFar {
    /// No operators.
    pub fn new(alloc: Global) -> SoFar
        ensures slots { result.slots.items ≡ [] }
        ensures domains { AreDomains result.domains [] }
    {
        SoFar {
            slots: Vec::new(alloc),
            domains: Domains::new(alloc),
        }
    }

    /// What is known of an input, which is one from now on; nothing where it was one before.
    pub fn take(&mut self, alloc: Global, input: u32) -> Known
        ensures known { result ≡ kept_at self.old.slots.items input }
        ensures slots { self.new.slots.items ≡ slice_set self.old.slots.items input None }
        ensures domains { self.new.domains ≡ self.old.domains }
    {
        match self.slots.get_mut(input as usize) {
            Some(slot) => emptied(alloc, slot),
            None => Known::none(alloc),
        }
    }

    /// Adds an operator of which this is known. `Err`: memory.
    pub fn push(&mut self, one: Known) -> Result<(), AllocError>
        ensures slots { OnOk result (self.new.slots.items ≡ self.old.slots.items ++ Some one ∷ []) }
        ensures domains { (known : List KnownValue) → AreDomains self.old.domains known → OnOk result (AreDomains self.new.domains (known ++ one ∷ [])) }
    {
        self.domains.push(&one)?;
        self.slots.push(Some(one))?;
        Ok(())
    }
}
