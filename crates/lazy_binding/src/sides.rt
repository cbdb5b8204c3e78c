// Which variables of a join are those of its right side, so that the left one isn't searched for them.
ghost use Rattle.std.specs.Prelude.{◌≡◌, ◌<◌, IfOk, length, map};
ghost use Rattle.plan_core.specs.PlanMade.{op_of};
ghost use Rattle.plan_core.specs.Shapes.{shape_of};
ghost use Rattle.plan_core.specs.Typed.{IsTyped};
ghost use Rattle.plan_core.specs.Valid.{kinds};
ghost use Rattle.lazy_binding.specs.Sides as sides;
ghost use Rattle.lazy_binding.specs.Sides.{AreRights};

use mix_tree::Var;
use plan_core::Op;
use plan_forms::binds;
use std::alloc::{AllocError, Global};

/// The variable of nodes that an operator binds itself.
fn node_var(op: &Op) -> Option<Var>
    ensures { result ≡ sides.node_var (shape_of (op_of op.now)) }
{
    match op {
        Op::Source { out, .. } => Some(*out),
        Op::GetDescendants { out, .. } => Some(*out),
        _ => None,
    }
}

/// The variables of nodes that these operators bind themselves, and a side doesn't.
fn others(alloc: Global, ops: &[Op], side: u32, among: &[Op]) -> Result<Vec<Var>, AllocError>
    requires typed { IsTyped (map op_of ops.now) }
    requires op { side < length (map op_of ops.now) }
    ensures { IfOk result (λ vars. vars.items ≡ sides.others (kinds (map op_of ops.now) side) (map op_of among.now)) }
{
    let mut vars = Vec::new(alloc);
    for op in among {
        if let Some(v) = node_var(op) {
            if !binds(ops, side, v) {
                vars.push(v)?;
            }
        }
    }
    Ok(vars)
}

/// The variables of an operator's right side alone; only a join has some.
fn right_vars(alloc: Global, ops: &[Op], n: usize) -> Result<Vec<Var>, AllocError>
    requires typed { IsTyped (map op_of ops.now) }
    requires op { n < length (map op_of ops.now) }
    ensures { IfOk result (λ vars. vars.items ≡ sides.right_vars (map op_of ops.now) n) }
{
    match &ops[n] {
        Op::Join { left, .. } => {
            let from = *left as usize + 1;
            let before = from <= n;
            prove!(before);
            others(alloc, ops, *left, &ops[from..n])
        }
        _ => Ok(Vec::new(alloc)),
    }
}

/// Of each operator the variables of nodes that its right side binds and its left one doesn't, so that the left one isn't searched for them. Only a join
/// has some.
pub fn rights(alloc: Global, ops: &[Op]) -> Result<Vec<Vec<Var>>, AllocError>
    requires { IsTyped (map op_of ops.now) }
    ensures length { IfOk result (λ rights. length rights.items ≡ length ops.now) }
    ensures vars { IfOk result (λ rights. AreRights (map op_of ops.now) rights.items) }
{
    let mut rights = Vec::new(alloc);
    for n in 0..ops.len() {
        rights.push(right_vars(alloc, ops, n)?)?;
    }
    Ok(rights)
}
