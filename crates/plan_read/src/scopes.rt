// Which operators are no input yet, and what each of them binds, as operators are gone through in order.
ghost use Rattle.std.specs.Prelude.{◌≡◌, ◌<◌, ◌==◌, ◌++◌, ◌∷◌, ℕ, [], List, None, false, IfOk, MatchBool, length, option_to_list, slice_get, slice_set};
ghost use Rattle.std.specs.List.{AllByRecursion, flat_map, list_any};
ghost use Rattle.plan_core.specs.PlanMade.{op_of};
ghost use Rattle.plan_core.specs.Plans.{Operator};
ghost use Rattle.plan_core.specs.Valid.{Kinds, op_kinds, HaveSmallerInputs, inputs_of, outs_of};
ghost use Rattle.plan_read.specs.Scopes.{AreSlots, AreOuts, AreScopes, IsBelow, IsSoundAfter, is_open, scope_in};

use crate::ops::{Inputs, inputs_of, out_of};
use crate::scope::Scope;
use mix_tree::Var;
use plan_core::Op;
use std::alloc::{AllocError, Global};
use std::collections::BTreeSet;

/// The scopes of the operators so far that are no input yet, each by its number, and all variables that were bound.
#[derive(Drop)]
pub struct Scopes {
    slots: Vec<Option<Scope>>,
    outs: BTreeSet<u32>,
}

impl Scopes {
    /// The scopes of no operators.
    pub fn new(alloc: Global) -> Scopes
        ensures { (of : ℕ → Kinds) → AreScopes result [] of }
    {
        Scopes {
            slots: Vec::new(alloc),
            outs: BTreeSet::new(alloc),
        }
    }

    // The scope of an input, which is one from now on; `None` where it was one before.
    fn take(&mut self, input: u32) -> Option<Scope>
        ensures scope { result ≡ scope_in (slice_get self.old.slots.items input) }
        ensures slots { self.new.slots.items ≡ slice_set self.old.slots.items input None }
        ensures outs { self.new.outs ≡ self.old.outs }
    {
        match self.slots.get_mut(input as usize) {
            Some(slot) => slot.take(),
            None => None,
        }
    }

    // The scope of two inputs together; `None` where one of them was an input before, or is one twice.
    fn take_both(&mut self, left: u32, right: u32) -> Result<Option<Scope>, AllocError>
        ensures below { (count : ℕ) (uses : ℕ → ℕ) (of : ℕ → Kinds) → AreSlots self.old.slots.items count uses of
            → left < count → right < count → IfOk result (IsBelow self.new.slots.items count uses of (left ∷ right ∷ [])) }
        ensures outs { self.new.outs ≡ self.old.outs }
    {
        let Some(first) = self.take(left) else {
            return Ok(None);
        };
        let Some(second) = self.take(right) else {
            return Ok(None);
        };
        Ok(Some(Scope::joined(first, second)?))
    }

    // The scope of the inputs of an operator together; `None` where one of them was an input before, or is one twice.
    fn below(&mut self, alloc: Global, op: &Op) -> Result<Option<Scope>, AllocError>
        ensures below { (count : ℕ) (uses : ℕ → ℕ) (of : ℕ → Kinds) → AreSlots self.old.slots.items count uses of
            → AllByRecursion (λ i. i < count) (inputs_of (op_of op.now))
            → IfOk result (IsBelow self.new.slots.items count uses of (inputs_of (op_of op.now))) }
        ensures outs { self.new.outs ≡ self.old.outs }
    {
        match inputs_of(op) {
            Inputs::NoInput => Ok(Some(Scope::new(alloc))),
            Inputs::OneInput(input) => Ok(self.take(input)),
            Inputs::TwoInputs(left, right) => self.take_both(left, right),
        }
    }

    // Adds the variable that an operator binds; whether no operator bound it before.
    fn add_out(&mut self, out: Option<Var>) -> Result<bool, AllocError>
        ensures new { (vars : List ℕ) → AreOuts self.old.outs vars → IfOk result (λ new. MatchBool new
            (AllByRecursion (λ v. list_any (λ w. w == v) vars ≡ false) (option_to_list out) × AreOuts self.new.outs (vars ++ option_to_list out))
            (AllByRecursion (λ v. list_any (λ w. w == v) vars ≡ false) (option_to_list out) → ⊥)) }
        ensures slots { self.new.slots ≡ self.old.slots }
    {
        match out {
            Some(var) => Ok(self.outs.insert(var.number())?),
            None => Ok(true),
        }
    }

    /// Goes on by an operator; whether it is sound after the others.
    pub fn push(&mut self, alloc: Global, op: &Op) -> Result<bool, AllocError>
        ensures { (before : List Operator) (of : ℕ → Kinds) → AreScopes self.old before of → HaveSmallerInputs 0 (before ++ op_of op.now ∷ [])
            → of (length before) ≡ op_kinds (op_of op.now) of
            → IfOk result (λ sound. MatchBool sound
            (IsSoundAfter before (op_of op.now) of × AreScopes self.new (before ++ op_of op.now ∷ []) of)
            (IsSoundAfter before (op_of op.now) of → ⊥)) }
    {
        let Some(below) = self.below(alloc, op)? else {
            return Ok(false);
        };
        if !below.fits(op) {
            return Ok(false);
        }
        if !self.add_out(out_of(op))? {
            return Ok(false);
        }
        let scope = below.above(alloc, op)?;
        self.slots.push(Some(scope))?;
        Ok(true)
    }

    /// Whether an operator is no input.
    pub fn is_unused(&self, number: usize) -> bool
        ensures { result ≡ is_open (slice_get self.now.slots.items number) }
    {
        match self.slots.get(number) {
            Some(slot) => slot.is_some(),
            None => false,
        }
    }
}
