// Which operators bind the variables of a comparison.
ghost use Rattle.std.specs.Prelude.{◌≡◌, [], ◌<◌, false, true, map, slice_index_or, IfOk};
ghost use Rattle.mix_tree.specs.Keys.{has_var};
ghost use Rattle.plan_core.specs.PlanMade.{op_of};
ghost use Rattle.plan_rewrite.specs.Marks.{op_binds, marks};

use mix_tree::{Key, Var};
use plan_core::Op;
use std::alloc::{AllocError, Global};

// Whether a variable is that of one of these keys.
fn names_var(keys: &[Key], v: Var) -> bool
    ensures { result ≡ has_var keys.now v }
{
    keys.iter().any(|key| key.var() == v)
}

// The mark of an operator; false where it has none.
pub fn mark_of(marks: &[bool], n: u32) -> bool
    ensures { result ≡ slice_index_or marks.now n false }
{
    match marks.get(n as usize) {
        Some(mark) => *mark,
        None => false,
    }
}

// Whether an operator binds a variable, from whether those before it do.
fn op_mark(op: &Op, v: Var, marks: &[bool]) -> bool
    ensures { result ≡ op_binds v (op_of op.now) (λ i. slice_index_or marks.now i false) }
{
    match op {
        Op::Source { source: _, out } => *out == v,
        Op::GetDescendants { input, out, .. } => *out == v || mark_of(marks, *input),
        Op::Select { input, .. } => mark_of(marks, *input),
        Op::Join { left, right, .. } => mark_of(marks, *left) || mark_of(marks, *right),
        Op::Project { input, keys } => names_var(keys, v) && mark_of(marks, *input),
        Op::GroupBy {
            input,
            keys,
            out,
            ..
        } => *out == v || (names_var(keys, v) && mark_of(marks, *input)),
        Op::OrderBy { input, .. } => mark_of(marks, *input),
        Op::Concatenate { input, out, .. } => *out == v || mark_of(marks, *input),
        Op::CreateElement { input, out, .. } => *out == v || mark_of(marks, *input),
        Op::TupleDestroy { .. } => false,
    }
}

// Which operators bind a variable.
pub fn new_marks(alloc: Global, ops: &[Op], v: Var) -> Result<Vec<bool>, AllocError>
    ensures { IfOk result (λ all. all.items ≡ marks v [] (map op_of ops.now)) }
{
    let mut all = Vec::new(alloc);
    for op in ops {
        all.push(op_mark(op, v, all.as_slice()))?;
    }
    Ok(all)
}
