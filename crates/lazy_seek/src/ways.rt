// The operators on the way of evidence, and how many of them are getDescendants.
ghost use Rattle.std.specs.Prelude.{◌≡◌, ◌+◌, ◌<◌, ◌≤◌, ◌||◌, ℕ, [], cond, false, IfOk, length, map, slice_index_or};
ghost use Rattle.plan_core.specs.PlanMade.{op_of};
ghost use Rattle.plan_core.specs.Typed.{IsTyped};
ghost use Rattle.plan_core.specs.Shapes.{shape_of};
ghost use Rattle.plan_evidence.specs.Evidence.{is_on_way, shape_way, visit_vars};
ghost use Rattle.lazy_seek.specs.Given.{vars_below};
ghost use Rattle.lazy_seek.specs.Ways.{way_inputs_of, IsWay};

use plan_core::Op;
use std::alloc::{AllocError, Global};

/// The inputs of an operator that are on the way of evidence.
enum WayInputs {
    None,
    One(u32),
    Two(u32, u32),
}

/// The inputs of an operator that are on the way of evidence: all but that of a groupBy without keys.
fn inputs_on_way(op: &Op) -> WayInputs
    ensures { shape_way (shape_of (op_of op.now)) ≡ way_inputs_of result }
{
    match op {
        Op::Source { .. } => WayInputs::None,
        Op::GetDescendants { input, .. } => WayInputs::One(*input),
        Op::Select { input, .. } => WayInputs::One(*input),
        Op::Join { left, right, .. } => WayInputs::Two(*left, *right),
        Op::Project { input, .. } => WayInputs::One(*input),
        Op::GroupBy { keys, .. } if keys.is_empty() => WayInputs::None,
        Op::GroupBy { input, .. } => WayInputs::One(*input),
        Op::OrderBy { input, .. } => WayInputs::One(*input),
        Op::Concatenate { input, .. } => WayInputs::One(*input),
        Op::CreateElement { input, .. } => WayInputs::One(*input),
        Op::TupleDestroy { input, .. } => WayInputs::One(*input),
    }
}

/// Marks an operator and those on the way below it.
fn mark(ops: &[Op], op: u32, way: &mut [bool])
    requires typed { IsTyped (map op_of ops.now) }
    requires op { op < length (map op_of ops.now) }
    requires room { op < length way.old }
    ensures length { length way.new ≡ length way.old }
    ensures marked { (i : ℕ) → slice_index_or way.new i false ≡ (slice_index_or way.old i false || is_on_way (map op_of ops.now) op i) }
{
    way[op as usize] = true;
    match inputs_on_way(&ops[op as usize]) {
        WayInputs::None => {}
        WayInputs::One(input) => mark(ops, input, way),
        WayInputs::Two(left, right) => {
            mark(ops, left, way);
            mark(ops, right, way);
        }
    }
}

/// Which operators up to an operator are on its way.
pub fn on_way(alloc: Global, ops: &[Op], op: u32) -> Result<Vec<bool>, AllocError>
    requires typed { IsTyped (map op_of ops.now) }
    requires op { op < length (map op_of ops.now) }
    ensures length { IfOk result (λ way. length way.items ≡ op + 1) }
    ensures way { IfOk result (λ way. IsWay (map op_of ops.now) op way.items) }
{
    let mut way = vec![in alloc; false; op as usize + 1]?;
    mark(ops, op, &mut way);
    Ok(way)
}

/// How many getDescendants an operator is that is on a way, or not.
fn visits(on_way: bool, op: &Op) -> usize
    ensures visits { result ≡ length (cond on_way (visit_vars (shape_of (op_of op.now))) []) }
    ensures small { result ≤ 1 }
{
    match op {
        Op::GetDescendants { .. } if on_way => 1,
        _ => 0,
    }
}

/// How many getDescendants are among the first operators, those on the way.
pub fn count_visits(ops: &[Op], way: &[bool]) -> usize
    requires { length way.now ≤ length (map op_of ops.now) }
    ensures { (n : ℕ) → IsWay (map op_of ops.now) n way.now → result ≡ length (vars_below (map op_of ops.now) n (length way.now)) }
{
    let mut count = 0;
    for i in 0..way.len() {
        count += visits(way[i], &ops[i]);
    }
    count
}
