// Whether each operator is the input of one later operator at most.
ghost use Rattle.std.specs.Prelude.{◌≡◌, true, false, IfOk, map, slice_set};
ghost use Rattle.plan_core.specs.PlanMade.{op_of};
ghost use Rattle.plan_core.specs.Trees.{lacks_mark, IsMarked, CannotMark, IsTree};
ghost use Rattle.plan_core.specs.Valid.{inputs_of};

use crate::Op;
use std::alloc::{AllocError, Global};

// Marks a number, if it is one of these and has no mark; whether it is.
fn mark(marks: &mut [bool], n: u32) -> bool
    ensures lacked { result ≡ lacks_mark marks.old n }
    ensures marks { result ≡ true → marks.new ≡ slice_set marks.old n true }
{
    let at = n as usize;
    if at >= marks.len() || marks[at] {
        return false;
    }
    marks[at] = true;
    true
}

// Marks the inputs of an operator, if each is one of these and has no mark; whether it is so.
#[tactic(auto, using(crate::proofs::Marks::one_marked, crate::proofs::Marks::one_unmarked))]
fn mark_inputs(marks: &mut [bool], op: &Op) -> bool
    ensures marked { result ≡ true → IsMarked marks.old (inputs_of (op_of op.now)) marks.new }
    ensures unmarked { result ≡ false → CannotMark marks.old (inputs_of (op_of op.now)) }
{
    match op {
        Op::Source { .. } => true,
        Op::Join { left, right, .. } => mark(marks, *left) && mark(marks, *right),
        Op::GetDescendants { input, .. }
        | Op::Select { input, .. }
        | Op::OrderBy { input, .. }
        | Op::Project { input, .. }
        | Op::GroupBy { input, .. }
        | Op::Concatenate { input, .. }
        | Op::CreateElement { input, .. }
        | Op::TupleDestroy { input, .. } => mark(marks, *input),
    }
}

/// Whether each operator is the input of one operator at most, which stands after it. `Err`: memory.
pub fn is_tree(alloc: Global, ops: &[Op]) -> Result<bool, AllocError>
    ensures is { IfOk result (λ b. b ≡ true → IsTree (map op_of ops.now)) }
    ensures not { IfOk result (λ b. b ≡ false → IsTree (map op_of ops.now) → ⊥) }
{
    let mut marks = Vec::new(alloc);
    'ops: for op in ops {
        if !mark_inputs(&mut marks, op) {
            return Ok(false);
        }
        marks.push(false)?;
    }
    Ok(true)
}
