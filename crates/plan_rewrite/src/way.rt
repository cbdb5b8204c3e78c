// The way of a selection down the joins.
ghost use Rattle.std.specs.Prelude.{◌≡◌, List, Some, map, IfOk, OnOk};
ghost use Rattle.mix_tree.specs.declared.comparing.Test.{Test};
ghost use Rattle.plan_core.specs.ByNumber.{op_at};
ghost use Rattle.plan_core.specs.Plans.{Operator};
ghost use Rattle.plan_core.specs.PlanMade.{op_of};
ghost use Rattle.plan_rewrite.specs.Edits.{landing};
ghost use Rattle.plan_rewrite.specs.Rewritten.{pushed};
ghost use Rattle.plan_make.specs.Trees.{Tree, under, numbered};
ghost use Rattle.plan_rewrite.specs.Walk.{AreRights, AreCovered, covers, next_in};

use crate::edit::place;
use crate::mark::{mark_of, new_marks};
use mix_tree::{Operand, Test};
use plan_core::Op;
use std::alloc::{AllocError, Global};

/// Which operators bind the left variable of a comparison, and which the right one, where it has one.
#[derive(Drop)]
pub struct Covered {
    pub lefts: Vec<bool>,
    pub rights: Option<Vec<bool>>,
}

// Which operators bind what is compared with.
fn new_rights(alloc: Global, ops: &[Op], operand: &Operand) -> Result<Option<Vec<bool>>, AllocError>
    ensures { IfOk result (λ m. AreRights operand.now (map op_of ops.now) m) }
{
    match operand {
        Operand::Var(v) => Ok(Some(new_marks(alloc, ops, *v)?)),
        Operand::Text(_) => Ok(None),
    }
}

// Which operators bind the variables of a comparison.
fn new_covered(alloc: Global, ops: &[Op], test: &Test) -> Result<Covered, AllocError>
    ensures { IfOk result (λ c. AreCovered test.now (map op_of ops.now) c) }
{
    let lefts = new_marks(alloc, ops, test.left)?;
    let rights = new_rights(alloc, ops, &test.right)?;
    Ok(Covered { lefts, rights })
}

// Whether operator n binds the variables of a comparison.
fn binds_all(c: &Covered, n: u32) -> bool
    ensures { (t : Test) (ops : List Operator) → AreCovered t ops c.now → result ≡ covers t ops n }
{
    if !mark_of(c.lefts.as_slice(), n) {
        return false;
    }
    match &c.rights {
        Some(rights) => mark_of(rights.as_slice(), n),
        None => true,
    }
}

// The side of a join into which a selection goes; `None` at any other operator, and where no side binds all variables.
fn next(ops: &[Op], c: &Covered, at: u32) -> Option<u32>
    ensures { (t : Test) → AreCovered t (map op_of ops.now) c.now → result ≡ next_in (covers t (map op_of ops.now)) (op_at (map op_of ops.now) at) }
{
    match ops.get(at as usize) {
        Some(Op::Join { left, right, .. }) => {
            if binds_all(c, *left) {
                return Some(*left);
            }
            if binds_all(c, *right) {
                return Some(*right);
            }
            None
        }
        _ => None,
    }
}

// Over which operator a selection comes to stand, or into which join; `last` is the last one.
fn landing(ops: &[Op], c: &Covered, last: u32) -> u32
    ensures { (t : Test) (x : Tree) → AreCovered t (map op_of ops.now) c.now → map op_of ops.now ≡ numbered 0 x → last ≡ under x → result ≡ landing t x }
{
    let mut at = last;
    for _ in 0..ops.len() {
        match next(ops, c, at) {
            Some(n) => at = n,
            None => return at,
        }
    }
    at
}

// Where a selection into the operators of a tree comes to stand; `None` where there are none.
fn landing_in(alloc: Global, ops: &[Op], test: &Test) -> Result<Option<u32>, AllocError>
    ensures { (x : Tree) → map op_of ops.now ≡ numbered 0 x → IfOk result (λ at. at ≡ Some (landing test.now x)) }
{
    let c = new_covered(alloc, ops, test)?;
    let Some(before) = ops.len().checked_sub(1) else {
        return Ok(None);
    };
    let last = u32::try_from(before).map_err(|_| AllocError)?;
    Ok(Some(landing(ops, &c, last)))
}

// Pushes a selection into the operators of a tree.
pub fn push_test(alloc: Global, ops: &mut Vec<Op>, test: Test) -> Result<(), AllocError>
    requires { (x : Tree) × (map op_of ops.old.items ≡ numbered 0 x) }
    ensures { (x : Tree) → map op_of ops.old.items ≡ numbered 0 x → OnOk result (map op_of ops.new.items ≡ numbered 0 (pushed test x)) }
{
    match landing_in(alloc, ops.as_slice(), &test)? {
        Some(at) => place(ops, at, test),
        None => Ok(()),
    }
}
