// Blocks: the operators of a tree, in numbers of their own.
ghost use Rattle.std.specs.Prelude.{◌≡◌, ◌++◌, ◌∷◌, [], ◌+◌, ◌-◌, ◌<◌, map, vec_len, IfOk, OnOk};
ghost use Rattle.plan_core.specs.PlanMade.{op_of};
ghost use Rattle.plan_rewrite.specs.Edits.{joined_ops, on_input};

use crate::copy::copy_op;
use crate::raise::raise_ops;
use mix_tree::Test;
use plan_core::Op;
use std::alloc::{AllocError, Global};

// The number of the last operator.
fn last_of(block: &Vec<Op>) -> Result<u32, AllocError>
    requires { 0 < vec_len block.now }
    ensures { IfOk result (λ n. n + 1 ≡ vec_len block.now) }
{
    u32::try_from(block.len() - 1).map_err(|_| AllocError)
}

// Joins two blocks: the left one's operators, the right one's raised after them, and the join.
pub fn join_blocks(left: Vec<Op>, right: Vec<Op>, tests: Vec<Test>) -> Result<Vec<Op>, AllocError>
    requires has_left { 0 < vec_len left }
    requires has_right { 0 < vec_len right }
    ensures { IfOk result (λ all. map op_of all.items ≡ joined_ops (vec_len left) (map op_of left.items) (vec_len right) (map op_of right.items) tests.items) }
{
    let by = u32::try_from(left.len()).map_err(|_| AllocError)?;
    let mut all = left;
    let mut more = right;
    let last = last_of(&all)?;
    raise_ops(more.as_mut_slice(), by)?;
    all.append(&mut more)?;
    let right_last = last_of(&all)?;
    all.push(Op::Join {
        left: last,
        right: right_last,
        tests,
    })?;
    Ok(all)
}

// Puts another input in place of an operator's one input.
fn set_input(op: &mut Op, i: u32)
    ensures { op_of op.new ≡ on_input i (op_of op.old) }
{
    match op {
        Op::Source { source: _, out: _ } => {}
        Op::GetDescendants { input, .. } => *input = i,
        Op::Select { input, .. } => *input = i,
        Op::Join { .. } => {}
        Op::Project { input, .. } => *input = i,
        Op::GroupBy { input, .. } => *input = i,
        Op::OrderBy { input, .. } => *input = i,
        Op::Concatenate { input, .. } => *input = i,
        Op::CreateElement { input, .. } => *input = i,
        Op::TupleDestroy { input, .. } => *input = i,
    }
}

// Adds an operator with one input over the last one.
pub fn add_over(alloc: Global, block: &mut Vec<Op>, op: &Op) -> Result<(), AllocError>
    requires { 0 < vec_len block.old }
    ensures { OnOk result (map op_of block.new.items ≡ map op_of block.old.items ++ on_input (vec_len block.old - 1) (op_of op.now) ∷ []) }
{
    let last = last_of(block)?;
    let mut copy = copy_op(alloc, op)?;
    set_input(&mut copy, last);
    block.push(copy)?;
    Ok(())
}
