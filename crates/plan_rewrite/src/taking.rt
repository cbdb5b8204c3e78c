// Blocks of operators: each is made over those of its inputs, which are taken for it.
ghost use Rattle.std.specs.Prelude.{◌≡◌, ◌<◌, ◌∷◌, [], ℕ, length, map, option_to_list, IfOk};
ghost use Rattle.plan_core.specs.PlanMade.{op_of};
ghost use Rattle.plan_core.specs.Valid.{inputs_of};
ghost use Rattle.plan_make.specs.Trees.{Tree, both, numbered};
ghost use Rattle.plan_rewrite.specs.Blocks.{blocks_of, block_at, without, block_over, IsBlock, AreBelow, SidesDiffer, one_input, put_on, HasBlock};
ghost use Rattle.plan_rewrite.specs.Rewritten.{pushed};

use crate::block::{add_over, join_blocks};
use crate::copy::{copy_op, copy_test, copy_tests};
use crate::way::push_test;
use mix_tree::Test;
use plan_core::Op;
use std::alloc::{AllocError, Global};
use std::mem;

// Takes the block of an operator, which has none from then on.
fn take_block(alloc: Global, blocks: &mut Vec<Vec<Op>>, n: u32) -> Vec<Op>
    requires { n < length blocks.old.items }
    ensures taken { map op_of result.items ≡ block_at (blocks_of blocks.old.items) n }
    ensures left { blocks_of blocks.new.items ≡ without (n ∷ []) (blocks_of blocks.old.items) }
{
    mem::replace(&mut blocks[n as usize], Vec::new(alloc))
}

// The input of an operator that has one.
fn input_of(op: &Op) -> Option<u32>
    ensures { result ≡ one_input (op_of op.now) }
{
    match op {
        Op::Source { .. } | Op::Join { .. } => None,
        Op::GetDescendants { input, .. } => Some(*input),
        Op::Select { input, .. } => Some(*input),
        Op::Project { input, .. } => Some(*input),
        Op::GroupBy { input, .. } => Some(*input),
        Op::OrderBy { input, .. } => Some(*input),
        Op::Concatenate { input, .. } => Some(*input),
        Op::CreateElement { input, .. } => Some(*input),
        Op::TupleDestroy { input, .. } => Some(*input),
    }
}

// The block of an operator without inputs.
fn new_block(alloc: Global, op: &Op) -> Result<Vec<Op>, AllocError>
    ensures { IfOk result (λ b. map op_of b.items ≡ op_of op.now ∷ []) }
{
    let mut block = Vec::new(alloc);
    block.push(copy_op(alloc, op)?)?;
    Ok(block)
}

// The block of an operator that is put on that of its input, where it has one.
fn block_above(alloc: Global, blocks: &mut Vec<Vec<Op>>, op: &Op) -> Result<Vec<Op>, AllocError>
    requires { HasBlock (one_input (op_of op.now)) (blocks_of blocks.old.items) }
    ensures made { let o = op_of op.now in
        IfOk result (λ b. map op_of b.items ≡ put_on (one_input o) (blocks_of blocks.old.items) o) }
    ensures left { let input = one_input (op_of op.now) in
        blocks_of blocks.new.items ≡ without (option_to_list input) (blocks_of blocks.old.items) }
{
    let Some(input) = input_of(op) else {
        return new_block(alloc, op);
    };
    let mut block = take_block(alloc, blocks, input);
    add_over(alloc, &mut block, op)?;
    Ok(block)
}

// The block of a selection, which goes into that of its input.
fn selected_block(
    alloc: Global,
    blocks: &mut Vec<Vec<Op>>,
    input: u32,
    test: &Test,
) -> Result<Vec<Op>, AllocError>
    requires { (x : Tree) × IsBlock (blocks_of blocks.old.items) input x }
    ensures made { (x : Tree) → IsBlock (blocks_of blocks.old.items) input x →
        IfOk result (λ b. map op_of b.items ≡ numbered 0 (pushed test.now x)) }
    ensures left { blocks_of blocks.new.items ≡ without (input ∷ []) (blocks_of blocks.old.items) }
{
    let mut block = take_block(alloc, blocks, input);
    push_test(alloc, &mut block, copy_test(alloc, test)?)?;
    Ok(block)
}

// The block of a join: those of both sides below it.
fn joined_block(
    alloc: Global,
    blocks: &mut Vec<Vec<Op>>,
    left: u32,
    right: u32,
    tests: &[Test],
) -> Result<Vec<Op>, AllocError>
    requires sides { left ≡ right → ⊥ }
    requires below { let all = blocks_of blocks.old.items in (x : Tree) × (y : Tree) × IsBlock all left x × IsBlock all right y }
    ensures made { let all = blocks_of blocks.old.items in
        (x y : Tree) → IsBlock all left x → IsBlock all right y → IfOk result (λ b. map op_of b.items ≡ numbered 0 (both x y tests.now)) }
    ensures left { blocks_of blocks.new.items ≡ without (left ∷ right ∷ []) (blocks_of blocks.old.items) }
{
    let below = take_block(alloc, blocks, left);
    let beside = take_block(alloc, blocks, right);
    join_blocks(below, beside, copy_tests(alloc, tests)?)
}

// The block of an operator, for which those of its inputs are taken.
pub fn next_block(alloc: Global, blocks: &mut Vec<Vec<Op>>, op: &Op) -> Result<Vec<Op>, AllocError>
    requires sides { SidesDiffer (op_of op.now) }
    requires below { (of : ℕ → Tree) × AreBelow (op_of op.now) of (blocks_of blocks.old.items) }
    ensures made { let o = op_of op.now in
        (of : ℕ → Tree) → AreBelow o of (blocks_of blocks.old.items) → IfOk result (λ b. map op_of b.items ≡ block_over o of) }
    ensures left { blocks_of blocks.new.items ≡ without (inputs_of (op_of op.now)) (blocks_of blocks.old.items) }
{
    match op {
        Op::Select { input, test } => selected_block(alloc, blocks, *input, test),
        Op::Join { left, right, tests } => {
            joined_block(alloc, blocks, *left, *right, tests.as_slice())
        }
        _ => block_above(alloc, blocks, op),
    }
}
