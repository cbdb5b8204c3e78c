// The way down to where a value is made.
ghost use Rattle.std.specs.Prelude.{◌≡◌, ℕ, ◌<◌, Some, IfOk, is_some, length, true};
ghost use Rattle.plan_core.specs.PlanMade.{plan_value};
ghost use Rattle.plan_core.specs.Typed.{IsTyped};
ghost use Rattle.plan_core.specs.Valid.{Kind, kinds};
ghost use Rattle.lazy_binding.specs.declared.position.Position.{Position};
ghost use Rattle.lazy_plan.specs.Bench.{BenchState, plan_of, IsCursor};
ghost use Rattle.lazy_site.specs.Origins.{IsMadeHere, FindsAlong};
ghost use Rattle.lazy_site.specs.Ways.{foot_op, foot_at, IsWay, KeepsWay, KeepsWays, GoesDown, Leads, LeadsUp};
ghost use Rattle.lazy_site.specs.Calls.{InEach, InSome};
ghost use Rattle.lazy_site.specs.declared.ways.Way.{Top};

use crate::origin::{made_here, passed_on};
use crate::sites::Origin;
use lazy_plan::{Bench, Cursor};
use mix_tree::Var;
use plan_core::{Op, Plan};
use plan_forms::{binds, operator};
use std::alloc::{AllocError, Global};
use std::rc::Rc;

/// Cursors on the way down from one, the lowest first: what the binding of one of them has, the uppermost has too.
#[derive(Drop)]
pub enum Way {
    /// The uppermost cursor of a way.
    Top { op: u32, at: Cursor },
    /// A cursor below others of a way.
    Below { op: u32, at: Cursor, above: Rc<Way> },
}

/// Ways from one cursor: to what was found last, and the one that goes down furthest of those to what was found so far.
#[derive(Drop)]
pub struct Ways {
    pub(crate) last: Rc<Way>,
    pub(crate) lowest: Rc<Way>,
}

/// Where the value of a variable is made, and the ways from then on.
#[derive(Drop)]
pub(crate) struct Found {
    pub(crate) origin: Origin,
    pub(crate) ways: Ways,
}

/// A way that can be shared.
fn put(alloc: Global, way: Way) -> Result<Rc<Way>, AllocError>
    ensures { IfOk result (λ r. r.value ≡ way) }
{
    Ok(Rc::new(alloc, way)?)
}

/// The same way once more.
fn share(way: &Rc<Way>) -> Result<Rc<Way>, AllocError>
    ensures { IfOk result (λ r. r.value ≡ way.now.value) }
{
    way.clone()
}

/// The same ways once more.
pub(crate) fn again(ways: &Ways) -> Result<Ways, AllocError>
    ensures { IfOk result (λ r. KeepsWays ways.now r) }
{
    let last = share(&ways.last)?;
    let lowest = share(&ways.lowest)?;
    Ok(Ways { last, lowest })
}

/// The ways from a cursor of which nothing was found yet.
pub(crate) fn begin(alloc: Global, op: u32, at: &Cursor) -> Result<Ways, AllocError>
    ensures last { IfOk result (λ r. r.last.value ≡ Top op at.now) }
    ensures lowest { IfOk result (λ r. r.lowest.value ≡ Top op at.now) }
{
    let at = at.again()?;
    let last = put(alloc, Way::Top { op, at })?;
    let lowest = share(&last)?;
    Ok(Ways { last, lowest })
}

/// The lowest cursor of a way, and its operator.
pub(crate) fn foot(way: &Way) -> (u32, &Cursor)
    ensures op { result.0 ≡ foot_op way.now }
    ensures at { result.1.now ≡ foot_at way.now }
{
    match way {
        Way::Top { op, at } => (*op, at),
        Way::Below { op, at, .. } => (*op, at),
    }
}

/// Whether an operator makes a variable, or has it of the right side of a join.
fn brings(plan: &Plan, op: u32, v: Var) -> bool
    requires typed { IsTyped (plan_value plan.now).ops }
    requires op { op < length (plan_value plan.now).ops }
    ensures { result ≡ true → result ≡ is_some (kinds (plan_value plan.now).ops op v) }
{
    match operator(plan, op) {
        Op::GetDescendants { out, .. } => *out == v,
        Op::Select { .. } => false,
        Op::Join { right, .. } => binds(&plan.ops, *right, v),
        Op::OrderBy { .. } => false,
        Op::Concatenate { out, .. } => *out == v,
        Op::CreateElement { out, .. } => *out == v,
        _ => binds(&plan.ops, op, v),
    }
}

/// The part of a way from the lowest cursor on whose operator brings a variable; where there is none, from the uppermost on.
fn climb(bench: &Bench, way: &Rc<Way>, v: Var) -> Result<Rc<Way>, AllocError>
    requires { InSome bench.now (λ st. LeadsUp st v way.now.value) }
    ensures way { IfOk result (λ r. KeepsWay way.now.value r.value) }
    ensures kind { IfOk result (λ r. (k : Kind) × (kinds (plan_value (plan_of bench.now)).ops (foot_op r.value) v ≡ Some k)) }
{
    let here: &Way = way;
    match here {
        Way::Top { .. } => share(way),
        Way::Below { op, above, .. } => {
            if brings(bench.plan(), *op, v) {
                share(way)
            } else {
                climb(bench, above, v)
            }
        }
    }
}

/// A way from its lowest cursor on down to where the value of a variable is made.
pub(crate) fn descend(
    alloc: Global,
    bench: &Bench,
    way: &Rc<Way>,
    v: Var,
) -> Result<Rc<Way>, AllocError>
    requires op { foot_op way.now.value < length (plan_value (plan_of bench.now)).ops }
    requires bench { InSome bench.now (λ st. IsCursor st (foot_op way.now.value) (foot_at way.now.value)) }
    requires kind { (k : Kind) × (kinds (plan_value (plan_of bench.now)).ops (foot_op way.now.value) v ≡ Some k) }
    ensures here { IfOk result (λ r. IsMadeHere (plan_of bench.now) (foot_op r.value) v) }
    ensures held { IfOk result (λ r. InEach bench.now (λ st. GoesDown st v way.now.value r.value)) }
{
    let (op, at) = foot(way);
    match passed_on(bench.plan(), op, v) {
        None => share(way),
        Some(input) => {
            let at = bench.under(alloc, op, at, input)?;
            let above = share(way)?;
            let below = put(
                alloc,
                Way::Below {
                    op: input,
                    at,
                    above,
                },
            )?;
            descend(alloc, bench, &below, v)
        }
    }
}

/// The one of two ways from one cursor that goes down further.
fn lower(way: &Rc<Way>, other: &Rc<Way>) -> Result<Rc<Way>, AllocError>
    ensures { IfOk result (λ r. (st : BenchState) (n : ℕ) (c : Position) → IsWay st n c way.now.value → IsWay st n c other.now.value → IsWay st n c r.value) }
{
    let (op, _) = foot(way);
    let (lowest, _) = foot(other);
    if op < lowest {
        share(way)
    } else {
        share(other)
    }
}

/// Where the value of a variable in the binding of a cursor is made, by ways from there: the end of the lowest one is tried first, since variables of
/// the body lie there; else the way is climbed from what was found last.
pub(crate) fn found_along(
    alloc: Global,
    bench: &Bench,
    ways: &Ways,
    v: Var,
) -> Result<Found, AllocError>
    requires { InSome bench.now (λ st. Leads st v ways.now) }
    ensures { IfOk result (λ f. InEach bench.now (λ st. FindsAlong st v ways.now f)) }
{
    let (low, _) = foot(&ways.lowest);
    if brings(bench.plan(), low, v) {
        let lowest = descend(alloc, bench, &ways.lowest, v)?;
        let origin = made_here(alloc, bench, &lowest, v)?;
        let last = share(&ways.last)?;
        let ways = Ways { last, lowest };
        return Ok(Found { origin, ways });
    }
    let place = climb(bench, &ways.last, v)?;
    let last = descend(alloc, bench, &place, v)?;
    let origin = made_here(alloc, bench, &last, v)?;
    let lowest = lower(&last, &ways.lowest)?;
    let ways = Ways { last, lowest };
    Ok(Found { origin, ways })
}
