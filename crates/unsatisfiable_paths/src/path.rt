// The paths of a plan that are unsatisfiable.
ghost use Rattle.std.specs.Prelude.{◌≡◌, ◌++◌, IfOk, OnOk, length, map};
ghost use Rattle.plan_core.specs.PlanMade.{op_of, plan_value};
ghost use Rattle.plan_core.specs.Shapes.{shape_of};
ghost use Rattle.plan_core.specs.Valid.{IsValid};
ghost use Rattle.plan_class.specs.Agree.{known_below};
ghost use Rattle.unsatisfiable_paths.specs.NodeDomains.{nodes_in, AreNodeDomains};
ghost use Rattle.unsatisfiable_paths.specs.Unsatisfiable.{has_any, of_each, found_nothing, unsatisfiable_in};

use crate::bound::bound_by;
use crate::domains::NodeDomains;
use browse_visit::{Shape, Sorts};
use plan_core::{Op, Plan, valid_plans_are_typed};
use std::alloc::{AllocError, Global};

/// A getDescendants whose path matches nothing.
#[derive(Clone, Copy)]
pub struct UnsatisfiablePath {
    /// The number of the operator.
    pub op: usize,
    /// The source of the nodes where the path starts.
    pub source: u32,
    /// The sorts among which those nodes are: none where no path leads to them already.
    pub from: Sorts,
}

// Whether a set has any sort.
fn has_any(sorts: Sorts) -> bool
    ensures { result ≡ has_any sorts }
{
    sorts.document
        || sorts.root
        || sorts.row
        || sorts.value
        || sorts.maybe_value
        || sorts.leaf
        || sorts.anything
}

// Where the nodes of all variables can lie. `Err`: memory.
fn all_domains(alloc: Global, plan: &Plan, shapes: &[Shape]) -> Result<NodeDomains, AllocError>
    requires { IsValid (plan_value plan.now) }
    ensures { IfOk result (λ ds. let ops = (plan_value plan.now).ops in AreNodeDomains ds (known_below shapes.now ops (length ops))) }
{
    valid_plans_are_typed();
    let mut domains = NodeDomains::new(alloc);
    'ops: for op in &plan.ops {
        let bound = bound_by(alloc, shapes, &domains, op)?;
        domains.push(bound)?;
    }
    Ok(domains)
}

// Adds the path of an operator, if it has one and that leads to no nodes. `Err`: memory.
fn push_path(
    paths: &mut Vec<UnsatisfiablePath>,
    domains: &NodeDomains,
    number: usize,
    op: &Op,
) -> Result<(), AllocError>
    ensures { OnOk result (paths.new.items ≡ paths.old.items ++ found_nothing (nodes_in domains.now) number (shape_of (op_of op.now))) }
{
    let Op::GetDescendants { start, out, .. } = op else {
        return Ok(());
    };
    if has_any(domains.of(*out).sorts) {
        return Ok(());
    }
    let from = domains.of(*start);
    paths.push(UnsatisfiablePath {
        op: number,
        source: from.source,
        from: from.sorts,
    })?;
    Ok(())
}

// The paths of operators that lead to no nodes. `Err`: memory.
fn all_paths(
    alloc: Global,
    domains: &NodeDomains,
    ops: &[Op],
) -> Result<Vec<UnsatisfiablePath>, AllocError>
    ensures { IfOk result (λ paths. paths.items ≡ of_each (found_nothing (nodes_in domains.now)) (map op_of ops.now) (length ops.now)) }
{
    let mut paths = Vec::new(alloc);
    'ops: for number in 0..ops.len() {
        push_path(&mut paths, domains, number, &ops[number])?;
    }
    Ok(paths)
}

/// The paths of a plan that match nothing, whatever documents of these shapes its sources have, in the order of their operators. A source past the
/// end of `shapes` has no known shape. `Err`: want of memory alone.
pub fn unsatisfiable_in(
    alloc: Global,
    plan: &Plan,
    shapes: &[Shape],
) -> Result<Vec<UnsatisfiablePath>, AllocError>
    requires { IsValid (plan_value plan.now) }
    ensures { IfOk result (λ paths. paths.items ≡ unsatisfiable_in shapes.now (plan_value plan.now).ops) }
{
    valid_plans_are_typed();
    let domains = all_domains(alloc, plan, shapes)?;
    all_paths(alloc, &domains, &plan.ops)
}
