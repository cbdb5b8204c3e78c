// The class of a plan.
ghost use Rattle.std.specs.Prelude.{◌≡◌, IfOk, map};
ghost use Rattle.plan_core.specs.PlanMade.{op_of, plan_value};
ghost use Rattle.plan_core.specs.Valid.{IsValid};
ghost use Rattle.browse_class.specs.Classes.{op_bound, all_bounds, op_sorts, sorts_any, class_by, class_in};
ghost use Rattle.browse_visit.specs.Shapes.{shapes_of};
ghost use Rattle.plan_class.specs.Agree.{lists_of};
ghost use Rattle.plan_class.specs.VarDomains.{domain_in};

use crate::domains::Domains;
use crate::profiles::all_profiles;
use browse_class::Class;
use browse_profile::larger;
use browse_visit::Shape;
use plan_core::{Op, Plan, valid_plans_are_typed};
use std::alloc::{AllocError, Global};

// Whether some operator sorts.
fn sorts_any(ops: &[Op]) -> bool
    ensures { result ≡ sorts_any (map op_of ops.now) }
{
    'ops: for op in ops {
        if sorts(op) {
            return true;
        }
    }
    false
}

// Whether an operator sorts.
#[tactic(auto, using(crate::proofs::Groups::groups_sort_nothing))]
fn sorts(op: &Op) -> bool
    ensures { result ≡ op_sorts (op_of op.now) }
{
    match op {
        Op::OrderBy { .. } => true,
        _ => false,
    }
}

// The greatest number of the list of a new element.
#[tactic(auto, using(crate::proofs::Groups::groups_bound_nothing))]
fn op_bound(domains: &Domains, op: &Op) -> Option<u64>
    ensures { result ≡ op_bound (op_of op.now) (λ i. lists_of (domain_in domains.now)) }
{
    match op {
        Op::CreateElement { list, .. } => domains.of(*list).trees.greatest(),
        _ => Some(0),
    }
}

// The greatest of 1 and all of them.
fn constant(domains: &Domains, ops: &[Op]) -> Option<u64>
    ensures { result ≡ all_bounds (map op_of ops.now) (λ i. lists_of (domain_in domains.now)) }
{
    let mut at = ops.len();
    let mut found = Some(1);
    'ops: while at > 0 {
        at -= 1;
        found = larger(op_bound(domains, &ops[at]), found);
    }
    found
}

// The class by the constant.
fn class_by(constant: Option<u64>) -> Class
    ensures { result ≡ class_by constant }
{
    match constant {
        None => Class::Browsable,
        Some(most) => Class::Bounded(most),
    }
}

/// The class of a plan over sources of such shapes. A source past the end of `shapes` has no known shape. `Err`: want of memory alone.
pub fn class_of(alloc: Global, plan: &Plan, shapes: &[Shape]) -> Result<Class, AllocError>
    requires { IsValid (plan_value plan.now) }
    ensures { IfOk result (λ c. c ≡ class_in (shapes_of shapes.now) (plan_value plan.now).ops) }
{
    valid_plans_are_typed();
    if sorts_any(&plan.ops) {
        return Ok(Class::Unbrowsable);
    }
    let profiles = all_profiles(alloc, plan, shapes)?;
    Ok(class_by(constant(&profiles.domains, &plan.ops)))
}
