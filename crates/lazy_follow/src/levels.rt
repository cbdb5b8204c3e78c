// One level of a text, followed from a list.
ghost use Rattle.std.specs.Prelude.{ℕ, List, IfOk};
ghost use Rattle.lazy_steps.specs.Steps.{HasCause};
ghost use Rattle.lazy_plan.specs.Bench.{state_of, ops_of, IsBenchOf};
ghost use Rattle.lazy_seek.specs.Evidenced.{reaches};
ghost use Rattle.lazy_seek.specs.Seeks.{Sought};
ghost use Rattle.lazy_follow.specs.Following.{choice};
ghost use Rattle.lazy_follow.specs.Levels.{IsListIn, GivesLed};

use crate::choosing::{Chosen, choose};
use crate::evidence::Evidence;
use crate::members::{Group, member};
use lazy_plan::{Bench, WalkFault};
use lxp_core::Sources;
use node_text::Level;
use plan_core::valid_plans_are_typed;
use std::alloc::Global;

/// To what a level of a text leads.
#[derive(Drop)]
pub enum Led {
    /// A list of pieces over the same binding: the number of the concatenate that makes it.
    List(u32),
    /// The tree of a piece over the same binding: the number of the operator that it is written in, and its index there.
    Tree(u32, usize),
    /// The tree of a groupBy's piece over a member: the number of the groupBy, and evidence of the member.
    Member(u32, Evidence),
}

/// To what a level leads from the list that an operator makes, in a binding that was reached by evidence; `None` where it leads nowhere. It asks at most as
/// many fills as the level's places reach. `Failed`: this source failed. Every earlier cursor and spot stays, whatever is answered.
pub fn follow_level<S: Sources>(
    alloc: Global,
    bench: &mut Bench,
    s: &mut S,
    from: &Group<'_>,
    level: &Level,
) -> Result<Option<Led>, WalkFault>
    requires bench { IsBenchOf (S.view s.old) bench.old }
    requires list { (places : List (List ℕ)) × IsListIn (state_of (S.view s.old) bench.old) places from.now }
    ensures sought { Sought S.view S.came_from (reaches level.now.tuple) s.old bench.old s.new bench.new }
    ensures cause { HasCause (ops_of (state_of (S.view s.old) bench.old)) (S.view s.old) (S.view s.new) result }
    ensures answer { (places : List (List ℕ)) → let old = state_of (S.view s.old) bench.old in let new = state_of (S.view s.new) bench.new in
        (h : IsListIn old places from.now) → IfOk result (GivesLed old new places from.now level.now.tuple (choice (ops_of old) h.list level.now)) }
{
    valid_plans_are_typed();
    match choose(bench.plan(), from.op, level) {
        Chosen::Nothing => Ok(None),
        Chosen::Tree(op, index) => Ok(Some(Led::Tree(op, index))),
        Chosen::Among(op) => Ok(Some(Led::List(op))),
        Chosen::Member(op) => {
            let group = Group {
                op,
                here: from.here,
            };
            let Some(there) = member(alloc, bench, s, &group, &level.tuple)? else {
                return Ok(None);
            };
            Ok(Some(Led::Member(op, there)))
        }
    }
}
