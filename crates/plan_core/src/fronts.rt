// The fronts of the operators so far, each kept for the operator that has it as an input.
ghost use Rattle.std.specs.Prelude.{◌≡◌, ◌<◌, ◌∷◌, [], ℕ, suc, true, List, IfOk, OnOk, length, map, slice_set};
ghost use Rattle.plan_core.specs.ByNumber.{op_at};
ghost use Rattle.plan_core.specs.Fronts.{no_front, op_front};
ghost use Rattle.plan_core.specs.FrontsKept.{front_in, without, over_front, AreKept};
ghost use Rattle.plan_core.specs.Plans.{Operator};
ghost use Rattle.plan_core.specs.PlanMade.{op_of};
ghost use Rattle.plan_core.specs.Shapes.{shape_of};
ghost use Rattle.plan_core.specs.Trees.{IsTree};
ghost use Rattle.plan_core.specs.Valid.{AreDistinct, inputs_of};

use crate::Op;
use crate::front::Front;
use crate::tree::is_tree;
use mix_tree::Var;
use std::alloc::{AllocError, Global};
use std::marker::Model;
use std::mem;

/// The fronts of the operators so far, each by its number. In a plan whose operators are each the input of one later operator a front moves on to
/// that one, and has no variables from then on; in any other all of them stay.
#[derive(Drop)]
pub struct Fronts {
    moving: bool,
    kept: Vec<Front>,
}

impl Model for Fronts {
    ghost use Rattle.plan_core.specs.FrontsKept.{Fronts as FrontsValue};

    ghost Value = { FrontsValue };

    ghost view = { λ f. record { moving = f.moving; kept = f.kept.items } };
}

// The front of an operator that has one input, from that one's front. `Err`: memory.
fn front_over(alloc: Global, op: &Op, below: Front) -> Result<Front, AllocError>
    ensures { IfOk result (λ f. f ≡ over_front (shape_of (op_of op.now)) below) }
{
    match op {
        Op::GetDescendants { out, .. } => below.extended(*out),
        Op::Select { .. } | Op::Concatenate { .. } | Op::CreateElement { .. } => Ok(below),
        Op::OrderBy { .. } => Ok(Front::empty(alloc, false)),
        Op::Project { keys, .. } | Op::GroupBy { keys, .. } => Ok(below.kept_by(keys)),
        _ => Ok(Front::empty(alloc, true)),
    }
}

impl Fronts {
    /// The fronts before the first operator of a plan. `Err`: memory.
    pub fn new(alloc: Global, ops: &[Op]) -> Result<Fronts, AllocError>
        ensures kept { IfOk result (λ fronts. AreKept (map op_of ops.now) 0 fronts) }
        ensures moving { IfOk result (λ fronts. IsTree (map op_of ops.now) → fronts.moving ≡ true) }
    {
        let moving = is_tree(alloc, ops)?;
        Ok(Fronts {
            moving,
            kept: Vec::new(alloc),
        })
    }

    /// Whether each front moves on to the operator that has it as an input.
    pub fn are_moving(&self) -> bool
        ensures { result ≡ self.now.moving }
    {
        self.moving
    }

    /// The variables of the front of a number; none where there is no such front.
    pub fn vars(&self, n: u32) -> &[Var]
        ensures { result.now ≡ (front_in self.now n).vars }
    {
        match self.kept.get(n as usize) {
            Some(front) => front.vars(),
            None => &[],
        }
    }

    /// Whether the front of a number is whole: no two bindings agree in all of its variables. So it is where there is no such front.
    pub fn is_whole(&self, n: u32) -> bool
        ensures { result ≡ (front_in self.now n).whole }
    {
        match self.kept.get(n as usize) {
            Some(front) => front.is_whole(),
            None => true,
        }
    }

    // Moves the front of a number out.
    fn moved(&mut self, alloc: Global, n: u32) -> Front
        ensures front { result ≡ front_in self.old n }
        ensures rest { self.new ≡ record { moving = self.old.moving; kept = slice_set self.old.kept n (no_front true) } }
    {
        match self.kept.get_mut(n as usize) {
            Some(front) => mem::replace(front, Front::empty(alloc, true)),
            None => Front::empty(alloc, true),
        }
    }

    // The front of a number once more. `Err`: memory.
    fn copied(&self, alloc: Global, n: u32) -> Result<Front, AllocError>
        ensures { IfOk result (λ f. f ≡ front_in self.now n) }
    {
        match self.kept.get(n as usize) {
            Some(front) => front.copied(alloc),
            None => Ok(Front::empty(alloc, true)),
        }
    }

    // Gives the front of a number to an operator that has it as an input. `Err`: memory.
    fn give(&mut self, alloc: Global, n: u32) -> Result<Front, AllocError>
        ensures front { IfOk result (λ f. f ≡ front_in self.old n) }
        ensures rest { OnOk result (self.new ≡ without self.old (n ∷ [])) }
    {
        if self.moving {
            Ok(self.moved(alloc, n))
        } else {
            self.copied(alloc, n)
        }
    }

    // The front of an operator, for which those of its inputs are given. `Err`: memory.
    fn front_of(&mut self, alloc: Global, op: &Op) -> Result<Front, AllocError>
        ensures front { (self.old.moving ≡ true → AreDistinct (inputs_of (op_of op.now))) → IfOk result (λ f. f ≡ op_front (op_of op.now) (front_in self.old)) }
        ensures rest { OnOk result (self.new ≡ without self.old (inputs_of (op_of op.now))) }
    {
        match op {
            Op::Source { .. } => Ok(Front::empty(alloc, true)),
            Op::Join { left, right, .. } => {
                let left = self.give(alloc, *left)?;
                let right = self.give(alloc, *right)?;
                left.beside(right)
            }
            Op::GetDescendants { input, .. }
            | Op::Select { input, .. }
            | Op::OrderBy { input, .. }
            | Op::Project { input, .. }
            | Op::GroupBy { input, .. }
            | Op::Concatenate { input, .. }
            | Op::CreateElement { input, .. }
            | Op::TupleDestroy { input, .. } => {
                let below = self.give(alloc, *input)?;
                front_over(alloc, op, below)
            }
        }
    }

    /// Adds the front of the next operator. `Err`: memory; nothing is said of the fronts then.
    pub fn push(&mut self, alloc: Global, op: &Op) -> Result<(), AllocError>
        ensures kept { (ops : List Operator) (n : ℕ) → n < length ops → op_at ops n ≡ op_of op.now → AreKept ops n self.old → OnOk result (AreKept ops (suc n) self.new) }
        ensures moving { OnOk result (self.new.moving ≡ self.old.moving) }
    {
        let front = self.front_of(alloc, op)?;
        self.kept.push(front)?;
        Ok(())
    }
}
