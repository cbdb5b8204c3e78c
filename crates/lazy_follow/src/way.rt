// The variables of evidence: those that the getDescendants on the way of an operator bind.
ghost use Rattle.std.specs.Prelude.{◌≡◌, ◌<◌, IfOk, length, map, cond, []};
ghost use Rattle.plan_core.specs.ByNumber.{op_at};
ghost use Rattle.plan_core.specs.PlanMade.{op_of};
ghost use Rattle.plan_core.specs.Shapes.{shape_of};
ghost use Rattle.plan_core.specs.Typed.{IsTyped};
ghost use Rattle.plan_evidence.specs.Evidence as evidence;
ghost use Rattle.plan_evidence.specs.Evidence.{is_on_way, visit_vars};
ghost use Rattle.lazy_follow.specs.Way.{vars_in};

use mix_tree::Var;
use plan_core::Op;
use std::alloc::{AllocError, Global};

/// The operator of a number.
fn operator_in(ops: &[Op], n: u32) -> &Op
    requires { n < length (map op_of ops.now) }
    ensures { op_of result.now ≡ op_at (map op_of ops.now) n }
{
    &ops[n as usize]
}

/// Whether an operator is on the way of another's evidence.
fn leads_to(ops: &[Op], n: u32, i: usize) -> bool
    requires typed { IsTyped (map op_of ops.now) }
    requires op { n < length (map op_of ops.now) }
    ensures { result ≡ is_on_way (map op_of ops.now) n i }
{
    if n as usize == i {
        return true;
    }
    match operator_in(ops, n) {
        Op::Source { .. } => false,
        Op::GetDescendants { input, .. } => leads_to(ops, *input, i),
        Op::Select { input, .. } => leads_to(ops, *input, i),
        Op::Join { left, right, .. } => leads_to(ops, *left, i) || leads_to(ops, *right, i),
        Op::Project { input, .. } => leads_to(ops, *input, i),
        Op::GroupBy { input, keys, .. } => !keys.is_empty() && leads_to(ops, *input, i),
        Op::OrderBy { input, .. } => leads_to(ops, *input, i),
        Op::Concatenate { input, .. } => leads_to(ops, *input, i),
        Op::CreateElement { input, .. } => leads_to(ops, *input, i),
        Op::TupleDestroy { input, .. } => leads_to(ops, *input, i),
    }
}

/// The variable that an operator binds by a visit; none where it is no getDescendants, or isn't on a way.
fn visited(on_way: bool, op: &Op) -> Option<Var>
    ensures { cond on_way (visit_vars (shape_of (op_of op.now))) [] ≡ vars_in result }
{
    match op {
        Op::GetDescendants { out, .. } if on_way => Some(*out),
        _ => None,
    }
}

/// The variables of an operator's evidence, in the order of the numbers of the getDescendants that bind them.
pub(crate) fn evidence_vars(alloc: Global, ops: &[Op], op: u32) -> Result<Vec<Var>, AllocError>
    requires typed { IsTyped (map op_of ops.now) }
    requires op { op < length (map op_of ops.now) }
    ensures { IfOk result (λ vars. vars.items ≡ evidence.evidence_vars (map op_of ops.now) op) }
{
    let mut vars = Vec::new(alloc);
    for i in 0..ops.len() {
        let on_way = leads_to(ops, op, i);
        if let Some(out) = visited(on_way, &ops[i]) {
            vars.push(out)?;
        }
    }
    Ok(vars)
}
