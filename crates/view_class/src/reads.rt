// Which sources a plan reads.
ghost use Rattle.std.specs.Prelude.{◌≡◌};
ghost use Rattle.std.specs.List.{list_any};
ghost use Rattle.plan_core.specs.PlanMade.{op_of, plan_value};
ghost use Rattle.view_class.specs.Reads.{op_reads, reads_source};

use plan_core::{Op, Plan};

// Whether an operator reads a source.
fn op_reads(op: &Op, s: u32) -> bool
    ensures { result ≡ op_reads s (op_of op.now) }
{
    match op {
        Op::Source { source, .. } => *source == s,
        Op::GetDescendants { .. }
        | Op::Select { .. }
        | Op::Join { .. }
        | Op::Project { .. }
        | Op::GroupBy { .. }
        | Op::OrderBy { .. }
        | Op::Concatenate { .. }
        | Op::CreateElement { .. }
        | Op::TupleDestroy { .. } => false,
    }
}

// Whether one of some operators reads a source.
fn any_reads(ops: &[Op], s: u32) -> bool
    ensures { result ≡ list_any (λ op. op_reads s (op_of op)) ops.now }
{
    ops.iter().any(|op| op_reads(op, s))
}

/// Whether a plan reads a source.
pub fn reads_source(plan: &Plan, s: u32) -> bool
    ensures { result ≡ reads_source (plan_value plan.now).ops s }
{
    any_reads(plan.ops.as_slice(), s)
}
