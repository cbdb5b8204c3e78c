// The spots of evidence, by its places.
ghost use Rattle.std.specs.Prelude.{◌≡◌, ℕ, suc, ◌<◌, length, IfOk, IfSome};
ghost use Rattle.plan_core.specs.PlanMade.{plan_value};
ghost use Rattle.lazy_steps.specs.Steps.{HasCause};
ghost use Rattle.lazy_plan.specs.Bench.{state_of, plan_of, IsBenchOf, ops_of};
ghost use Rattle.lazy_seek.specs.Evidenced.{reaches, AreSpotsGiven, GivesEvidence};
ghost use Rattle.lazy_seek.specs.Seeks.{Sought};
ghost use Rattle.lazy_seek.specs.Turns.{IsWanted};
ghost use Rattle.lazy_seek.specs.Ways.{IsWay};

use crate::evidence::{Found, Turn, Wanted};
use crate::ways::{count_visits, on_way};
use lazy_plan::{Bench, WalkFault};
use lxp_core::Sources;
use mix_tree::Place;
use plan_core::valid_plans_are_typed;
use std::alloc::Global;
use tree_buffer::Spot;

// The spots of the places that are wanted, turn by turn along the way of their operator: each operator up to it, and whether it is on that way.
fn sought_along<S: Sources>(
    alloc: Global,
    bench: &mut Bench,
    s: &mut S,
    wanted: &Wanted<'_>,
    way: &[bool],
) -> Result<Option<Vec<Spot>>, WalkFault>
    requires bench { IsBenchOf (S.view s.old) bench.old }
    requires wanted { IsWanted (plan_value (plan_of bench.old)).ops wanted.now }
    requires way { IsWay (plan_value (plan_of bench.old)).ops wanted.now.op way.now }
    requires length { length way.now ≡ suc wanted.now.op }
    ensures sought { Sought S.view S.came_from (reaches wanted.now.places.now) s.old bench.old s.new bench.new }
    ensures cause { HasCause (ops_of (state_of (S.view s.old) bench.old)) (S.view s.old) (S.view s.new) result }
    ensures spots { IfOk result (λ r. IfSome r (λ spots. AreSpotsGiven (state_of (S.view s.new) bench.new) wanted.now.op wanted.now.places.now spots.items)) }
    ensures answer { IfOk result (GivesEvidence (state_of (S.view s.old) bench.old) (state_of (S.view s.new) bench.new) wanted.now.op wanted.now.places.now) }
{
    let mut found = Found::new(alloc);
    for i in 0..way.len() {
        let turn = Turn {
            wanted: *wanted,
            op: i as u32,
            on_way: way[i],
        };
        if !found.goes_on(alloc, bench, s, &turn)? {
            return Ok(None);
        }
    }
    Ok(Some(found.spots))
}

/// The spots of these places, one for each getDescendants on the way of an operator, where the places are right evidence of it; else `None`.
/// It asks at most as many fills as the places reach. `Failed`: this source failed. Every earlier cursor and spot stays, whatever is answered.
pub fn sought<S: Sources>(
    alloc: Global,
    bench: &mut Bench,
    s: &mut S,
    op: u32,
    places: &[Place],
) -> Result<Option<Vec<Spot>>, WalkFault>
    requires op { suc op < length (plan_value (plan_of bench.old)).ops }
    requires bench { IsBenchOf (S.view s.old) bench.old }
    ensures sought { Sought S.view S.came_from (reaches places.now) s.old bench.old s.new bench.new }
    ensures cause { HasCause (ops_of (state_of (S.view s.old) bench.old)) (S.view s.old) (S.view s.new) result }
    ensures spots { IfOk result (λ r. IfSome r (λ spots. AreSpotsGiven (state_of (S.view s.new) bench.new) op places.now spots.items)) }
    ensures answer { IfOk result (GivesEvidence (state_of (S.view s.old) bench.old) (state_of (S.view s.new) bench.new) op places.now) }
{
    valid_plans_are_typed();
    let way = on_way(alloc, &bench.plan().ops, op)?;
    if count_visits(&bench.plan().ops, &way) != places.len() {
        return Ok(None);
    }
    sought_along(alloc, bench, s, &Wanted { op, places }, &way)
}
