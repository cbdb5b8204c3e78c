// The text of an identifier followed from the outer element of the plan's document.
ghost use Rattle.std.specs.Prelude.{◌≡◌, ◌<◌, ℕ, suc, Some, IfOk, IfSome, length};
ghost use Rattle.plan_core.specs.PlanMade.{plan_value};
ghost use Rattle.plan_core.specs.Shapes.{shape_at};
ghost use Rattle.plan_core.specs.Valid.{Kind, an_element, kinds, IsValid};
ghost use Rattle.plan_core.specs.declared.plan.Piece.TheVariants.{Var as var_piece};
ghost use Rattle.plan_evidence.specs.Named.{maker};
ghost use Rattle.lazy_steps.specs.Steps.{HasCause};
ghost use Rattle.lazy_plan.specs.Bench.{state_of, ops_of, IsBenchOf};
ghost use Rattle.lazy_seek.specs.Seeks.{Sought};
ghost use Rattle.lazy_follow.specs.Choosing.{IsListBy};
ghost use Rattle.lazy_follow.specs.Ends.{IsElementBy};
ghost use Rattle.lazy_follow.specs.Following.{list_in};
ghost use Rattle.lazy_follow.specs.Marks.{text_reach};
ghost use Rattle.lazy_follow.specs.Scope.{InScope};
ghost use Rattle.lazy_follow.specs.Trails.{ahead_reach, GivesFromOuter, GivesMark};

use crate::choosing::list_maker;
use crate::ends::makes_element;
use crate::evidence::Evidence;
use crate::following::{Ahead, Trail, follow_list};
use crate::mark::{Mark, Shown};
use crate::members::Group;
use lazy_plan::{Bench, WalkFault};
use lxp_core::Sources;
use mix_tree::Var;
use node_text::NodeData;
use plan_core::{Op, Plan, valid_plans_are_typed};
use plan_forms::{last, operator};
use std::alloc::Global;

/// The number of the operator that makes the elements of a variable, of which an operator binds one.
fn outer_maker(plan: &Plan, input: u32, v: Var) -> u32
    requires valid { IsValid (plan_value plan.now) }
    requires op { input < length (plan_value plan.now).ops }
    requires element { kinds (plan_value plan.now).ops input v ≡ Some an_element }
    ensures { IsElementBy (plan_value plan.now).ops v (Some result) }
{
    valid_plans_are_typed();
    for i in 0..input {
        if makes_element(operator(plan, i), v) {
            return i;
        }
    }
    input
}

/// The number of the operator that makes the list of the elements that an operator makes; `None` where it makes none.
fn list_in_element(plan: &Plan, element: u32) -> Option<u32>
    requires valid { IsValid (plan_value plan.now) }
    requires op { element < length (plan_value plan.now).ops }
    ensures list { (v : ℕ) → maker (plan_value plan.now).ops v ≡ shape_at (plan_value plan.now).ops element
        → IsListBy (plan_value plan.now).ops (list_in (plan_value plan.now).ops (var_piece v)) result }
    ensures scope { (n v : ℕ) (k : Kind) → suc n < length (plan_value plan.now).ops → maker (plan_value plan.now).ops v ≡ shape_at (plan_value plan.now).ops element
        → kinds (plan_value plan.now).ops n v ≡ Some k → IfSome result (InScope (plan_value plan.now).ops n) }
{
    valid_plans_are_typed();
    match operator(plan, element) {
        Op::CreateElement { list, .. } => list_maker(plan, element, *list),
        _ => None,
    }
}

/// What is found where what is ahead is followed from the outer element. It asks at most as many fills as its places reach. `Failed`: this source failed.
fn follow_outer<S: Sources>(
    alloc: Global,
    bench: &mut Bench,
    s: &mut S,
    ahead: &Ahead<'_>,
) -> Result<Option<Trail>, WalkFault>
    requires { IsBenchOf (S.view s.old) bench.old }
    ensures sought { Sought S.view S.came_from (ahead_reach ahead.now) s.old bench.old s.new bench.new }
    ensures cause { HasCause (ops_of (state_of (S.view s.old) bench.old)) (S.view s.old) (S.view s.new) result }
    ensures answer { let old = state_of (S.view s.old) bench.old in let new = state_of (S.view s.new) bench.new in
        IfOk result (GivesFromOuter old new ahead.now) }
{
    valid_plans_are_typed();
    let (input, v) = last(bench.plan());
    let element = outer_maker(bench.plan(), input, v);
    if ahead.levels.is_empty() {
        if !ahead.inside.is_empty() {
            return Ok(None);
        }
        let members = Vec::new(alloc);
        let shown = Shown::Element(element);
        return Ok(Some(Trail { members, shown }));
    }
    let Some(op) = list_in_element(bench.plan(), element) else {
        return Ok(None);
    };
    let here = Evidence::of(alloc, bench, input, Vec::new(alloc))?;
    follow_list(alloc, bench, s, &Group { op, here: &here }, ahead)
}

/// The mark of an identifier's text, as what it says, followed over the sources from the outer element to its node. Over sources that tell their documents
/// `None` comes exactly where it can't be followed. It asks at most as many fills as its places reach. `Failed`: this source failed. Every earlier cursor and
/// spot stays, whatever is answered.
pub fn followed<S: Sources>(
    alloc: Global,
    bench: &mut Bench,
    s: &mut S,
    text: NodeData,
) -> Result<Option<Mark>, WalkFault>
    requires { IsBenchOf (S.view s.old) bench.old }
    ensures sought { Sought S.view S.came_from (text_reach text) s.old bench.old s.new bench.new }
    ensures cause { HasCause (ops_of (state_of (S.view s.old) bench.old)) (S.view s.old) (S.view s.new) result }
    ensures answer { IfOk result (GivesMark (state_of (S.view s.old) bench.old) (state_of (S.view s.new) bench.new) text) }
{
    let ahead = Ahead {
        levels: &text.levels,
        inside: text.inside.steps(),
    };
    let Some(Trail { members, shown }) = follow_outer(alloc, bench, s, &ahead)? else {
        return Ok(None);
    };
    Ok(Some(Mark {
        data: text,
        members,
        shown,
    }))
}
