// Where the value of a variable is made.
ghost use Rattle.std.specs.Prelude.{◌≡◌, ◌<◌, IfOk, Some, MatchOption, length};
ghost use Rattle.plan_core.specs.declared.plan.Piece.TheVariants.{Var as var_piece};
ghost use Rattle.plan_core.specs.ByNumber.{op_at};
ghost use Rattle.plan_core.specs.PlanMade.{plan_value};
ghost use Rattle.plan_core.specs.Typed.{IsTyped};
ghost use Rattle.plan_core.specs.Valid.{IsValid, Kind, kinds, a_node, IsSinglePiece};
ghost use Rattle.lazy_plan.specs.Bench.{plan_of, IsCursor};
ghost use Rattle.plan_forms.specs.Forms.{pieces_of, piece_at, input_at, IsWritten};
ghost use Rattle.lazy_site.specs.Origins.{IsOriginOf, IsPassedOn, PassesAll, IsMadeHere, GivesMade, GivesElement, IsTreeOf, IsHeadOf};
ghost use Rattle.lazy_site.specs.Ways.{foot_op, foot_at};
ghost use Rattle.lazy_site.specs.declared.sites.Origin.TheVariants.{Node};
ghost use Rattle.lazy_site.specs.Calls.{InEach, InSome};

use crate::sites::{Head, Origin, PiecesFrom};
use crate::ways::{Way, begin, descend, foot};
use lazy_plan::{Bench, Cursor};
use mix_tree::Var;
use plan_core::{Op, Piece, Plan};
use plan_forms::{binds, operator, piece};
use std::alloc::{AllocError, Global};
use tree_buffer::Spot;

/// The input in whose binding a variable has the same value; `None` where it holds a node or the operator makes its value.
pub(crate) fn passed_on(plan: &Plan, op: u32, v: Var) -> Option<u32>
    requires valid { IsValid (plan_value plan.now) }
    requires typed { IsTyped (plan_value plan.now).ops }
    requires op { op < length (plan_value plan.now).ops }
    requires kind { (k : Kind) × (kinds (plan_value plan.now).ops op v ≡ Some k) }
    ensures value { MatchOption result (IsMadeHere plan.now op v) (IsPassedOn plan.now op v) }
    ensures all { MatchOption result (Unit {0}) (PassesAll plan.now op) }
{
    match operator(plan, op) {
        Op::Source { .. } => None,
        Op::GetDescendants { input, out, .. } => { if *out == v { None } else { Some(*input) } }
        Op::Select { input, .. } => Some(*input),
        // The right side of joins in a row is a single branch, which soon tells whether it binds the variable.
        Op::Join { left, right, .. } => {
            if binds(&plan.ops, *right, v) {
                Some(*right)
            } else {
                Some(*left)
            }
        }
        Op::Project { .. } => None,
        Op::GroupBy { .. } => None,
        Op::OrderBy { input, .. } => Some(*input),
        Op::Concatenate { input, out, .. } => { if *out == v { None } else { Some(*input) } }
        Op::CreateElement { input, out, .. } => { if *out == v { None } else { Some(*input) } }
        Op::TupleDestroy { .. } => None,
    }
}

/// Where the value of a variable in a cursor's binding is made.
pub(crate) fn origin_of(
    alloc: Global,
    bench: &Bench,
    op: u32,
    c: &Cursor,
    v: Var,
) -> Result<Origin, AllocError>
    requires op { op < length (plan_value (plan_of bench.now)).ops }
    requires bench { InSome bench.now (λ st. IsCursor st op c.now) }
    requires kind { (k : Kind) × (kinds (plan_value (plan_of bench.now)).ops op v ≡ Some k) }
    ensures { IfOk result (λ r. InEach bench.now (λ st. IsCursor st op c.now → IsOriginOf st op c.now v r)) }
{
    if passed_on(bench.plan(), op, v).is_none() {
        return made_at(alloc, bench, op, c, v);
    }
    let top = begin(alloc, op, c)?;
    let way = descend(alloc, bench, &top.last, v)?;
    made_here(alloc, bench, &way, v)
}

/// The value that the operator at the lowest cursor of a way makes, or the node that a variable holds there.
pub(crate) fn made_here(
    alloc: Global,
    bench: &Bench,
    way: &Way,
    v: Var,
) -> Result<Origin, AllocError>
    requires op { foot_op way.now < length (plan_value (plan_of bench.now)).ops }
    requires bench { InSome bench.now (λ st. IsCursor st (foot_op way.now) (foot_at way.now)) }
    requires here { IsMadeHere (plan_of bench.now) (foot_op way.now) v }
    ensures { IfOk result (λ r. InEach bench.now (λ st. let n = foot_op way.now in let c = foot_at way.now in
        IsCursor st n c → IsOriginOf st n c v r)) }
{
    let (op, c) = foot(way);
    made_at(alloc, bench, op, c, v)
}

/// The value that an operator makes over a cursor of it, or the node that a variable holds there.
fn made_at(alloc: Global, bench: &Bench, op: u32, c: &Cursor, v: Var) -> Result<Origin, AllocError>
    requires op { op < length (plan_value (plan_of bench.now)).ops }
    requires bench { InSome bench.now (λ st. IsCursor st op c.now) }
    requires here { IsMadeHere (plan_of bench.now) op v }
    ensures { IfOk result (λ r. InEach bench.now (λ st. IsCursor st op c.now → IsOriginOf st op c.now v r)) }
{
    match made(alloc, bench, op, c, v)? {
        Some(origin) => Ok(origin),
        None => {
            let (source, spot) = node_of(bench, op, c, v);
            Ok(Origin::Node(source, spot))
        }
    }
}

/// The node that a variable holds in a cursor's binding: its source and its spot.
fn node_of(bench: &Bench, op: u32, c: &Cursor, v: Var) -> (u32, Spot)
    requires op { op < length (plan_value (plan_of bench.now)).ops }
    requires bench { InSome bench.now (λ st. IsCursor st op c.now) }
    requires node { kinds (plan_value (plan_of bench.now)).ops op v ≡ Some a_node }
    ensures { InEach bench.now (λ st. IsCursor st op c.now → IsOriginOf st op c.now v (Node result.0 result.1)) }
{
    bench.node(op, c, v)
}

/// The value that an operator makes of a variable; `None` where it makes none.
fn made(
    alloc: Global,
    bench: &Bench,
    op: u32,
    c: &Cursor,
    v: Var,
) -> Result<Option<Origin>, AllocError>
    requires op { op < length (plan_value (plan_of bench.now)).ops }
    requires bench { InSome bench.now (λ st. IsCursor st op c.now) }
    ensures { IfOk result (λ r. InEach bench.now (λ st. IsCursor st op c.now → GivesMade st op c.now v r)) }
{
    match operator(bench.plan(), op) {
        Op::GroupBy { keys, out, .. } => {
            if *out != v {
                return Ok(None);
            }
            if keys.is_empty() {
                return Ok(Some(Origin::All { op }));
            }
            let (first, number) = bench.group_at(alloc, op, c)?;
            Ok(Some(Origin::Group { op, first, number }))
        }
        Op::Concatenate { input, out, .. } => {
            if *out != v {
                return Ok(None);
            }
            let at = bench.under(alloc, op, c, *input)?;
            Ok(Some(Origin::Joined { op, at }))
        }
        Op::CreateElement { .. } => match element_under(alloc, bench, op, c, v)? {
            Some(at) => Ok(Some(Origin::Element { op, at })),
            None => Ok(None),
        },
        _ => Ok(None),
    }
}

/// The cursor of the input over whose binding an operator makes an element of a variable; `None` where it makes none.
fn element_under(
    alloc: Global,
    bench: &Bench,
    op: u32,
    c: &Cursor,
    v: Var,
) -> Result<Option<Cursor>, AllocError>
    requires op { op < length (plan_value (plan_of bench.now)).ops }
    requires bench { InSome bench.now (λ st. IsCursor st op c.now) }
    ensures { IfOk result (λ r. InEach bench.now (λ st. IsCursor st op c.now → GivesElement st op c.now v r)) }
{
    match operator(bench.plan(), op) {
        Op::CreateElement { input, out, .. } => {
            if *out != v {
                return Ok(None);
            }
            Ok(Some(bench.under(alloc, op, c, *input)?))
        }
        _ => Ok(None),
    }
}

/// The tree of a variable that holds no list, in a cursor's binding.
fn tree_of(alloc: Global, bench: &Bench, op: u32, c: &Cursor, v: Var) -> Result<Head, AllocError>
    requires op { op < length (plan_value (plan_of bench.now)).ops }
    requires bench { InSome bench.now (λ st. IsCursor st op c.now) }
    requires one { IsSinglePiece (kinds (plan_value (plan_of bench.now)).ops op) (var_piece v) }
    ensures { IfOk result (λ h. InEach bench.now (λ st. IsCursor st op c.now → IsTreeOf st op c.now v h)) }
{
    match origin_of(alloc, bench, op, c, v)? {
        Origin::Element { op, at } => Ok(Head::Built { op, at }),
        Origin::Node(source, spot) => Ok(Head::Whole(source, spot)),
        _ => unreachable!(),
    }
}

/// The tree of a piece that is no list, over a cursor of its operator's input.
pub(crate) fn head_of(
    alloc: Global,
    bench: &Bench,
    from: &PiecesFrom<'_>,
    input: u32,
) -> Result<Head, AllocError>
    requires op { from.now.op < length (plan_value (plan_of bench.now)).ops }
    requires index { from.now.next < length (pieces_of (op_at (plan_value (plan_of bench.now)).ops from.now.op)) }
    requires input { input ≡ input_at (plan_value (plan_of bench.now)).ops from.now.op }
    requires bench { InSome bench.now (λ st. IsCursor st input from.now.at.now) }
    requires written { IsWritten (op_at (plan_value (plan_of bench.now)).ops from.now.op) }
    requires one { IsSinglePiece (kinds (plan_value (plan_of bench.now)).ops input) (piece_at (plan_value (plan_of bench.now)).ops from.now.op from.now.next) }
    ensures { IfOk result (λ h. InEach bench.now (λ st. IsCursor st input from.now.at.now → IsHeadOf st from.now.op from.now.next from.now.at.now h)) }
{
    match piece(bench.plan(), from.op, from.next) {
        Piece::Text(_) => Ok(Head::Text {
            op: from.op,
            index: from.next,
        }),
        Piece::LabelOf(v) => {
            let (source, spot) = node_of(bench, input, from.at, *v);
            Ok(Head::Leaf(source, spot))
        }
        Piece::Var(v) => tree_of(alloc, bench, input, from.at, *v),
    }
}
