// The node at a place, by steps down and to the right, and whether the path of an operator leads to it.
ghost use Rattle.std.specs.Prelude.{◌≡◌, ◌+◌, ◌++◌, ◌∷◌, ◌<◌, [], IfOk, IfSome, length};
ghost use Rattle.path_expr.specs.Form.{Form};
ghost use Rattle.plan_core.specs.PlanMade.{plan_value};
ghost use Rattle.lazy_binding.specs.World.{place_in};
ghost use Rattle.lazy_steps.specs.Steps.{HasCause};
ghost use Rattle.lazy_plan.specs.Bench.{state_of, plan_of, IsBenchOf, ops_of, IsSpotAt, IsVisitAlong};
ghost use Rattle.lazy_seek.specs.Reach.{reach};
ghost use Rattle.lazy_seek.specs.Seeks.{Sought, StandsAt, GivesPlace, GivesMatch};

use lazy_plan::{Bench, WalkFault};
use lxp_core::Sources;
use std::alloc::Global;
use tree_buffer::Spot;

/// A node of a source: the number of the source, and the node's spot there.
#[derive(Clone, Copy)]
pub struct NodeAt {
    pub source: u32,
    pub spot: Spot,
}

/// Child indexes that lead down from a node, and the getDescendants by whose path they may lead.
#[derive(Clone, Copy)]
pub struct Way<'a> {
    pub op: u32,
    pub steps: &'a [u64],
}

/// The child of a node at an index; `None` where the node has not so many. It asks at most one fill more than the index. `Failed`: this source failed. Every
/// earlier cursor and spot stays, whatever is answered.
pub fn child_at<S: Sources>(
    alloc: Global,
    bench: &mut Bench,
    s: &mut S,
    node: &NodeAt,
    index: u64,
) -> Result<Option<Spot>, WalkFault>
    requires bench { IsBenchOf (S.view s.old) bench.old }
    requires spot { IsSpotAt (state_of (S.view s.old) bench.old) node.now.source node.now.spot }
    ensures sought { Sought S.view S.came_from (index + 1) s.old bench.old s.new bench.new }
    ensures cause { HasCause (ops_of (state_of (S.view s.old) bench.old)) (S.view s.old) (S.view s.new) result }
    ensures answer { let old = state_of (S.view s.old) bench.old in let new = state_of (S.view s.new) bench.new in
        IfOk result (GivesPlace old new node.now.source (place_in old.world node.now.source node.now.spot ++ index ∷ [])) }
{
    let Some(mut at) = bench.spot_down(alloc, s, node.source, &node.spot)? else {
        return Ok(None);
    };
    for passed in 0..index {
        let Some(next) = bench.spot_right(alloc, s, node.source, &at)? else {
            return Ok(None);
        };
        at = next;
    }
    Ok(Some(at))
}

/// The node that child indexes lead to from a document node; `None` where the document has no such place. It asks at most as many fills
/// as there are steps down and to the right. `Failed`: this source failed. Every earlier cursor and spot stays, whatever is answered.
pub fn seek<S: Sources>(
    alloc: Global,
    bench: &mut Bench,
    s: &mut S,
    top: &NodeAt,
    steps: &[u64],
) -> Result<Option<Spot>, WalkFault>
    requires bench { IsBenchOf (S.view s.old) bench.old }
    requires spot { IsSpotAt (state_of (S.view s.old) bench.old) top.now.source top.now.spot }
    requires top { place_in (state_of (S.view s.old) bench.old).world top.now.source top.now.spot ≡ [] }
    ensures sought { Sought S.view S.came_from (reach steps.now) s.old bench.old s.new bench.new }
    ensures cause { HasCause (ops_of (state_of (S.view s.old) bench.old)) (S.view s.old) (S.view s.new) result }
    ensures answer { let old = state_of (S.view s.old) bench.old in let new = state_of (S.view s.new) bench.new in
        IfOk result (GivesPlace old new top.now.source steps.now) }
{
    let source = top.source;
    let mut spot = top.spot;
    for index in steps {
        let node = NodeAt { source, spot };
        let Some(next) = child_at(alloc, bench, s, &node, *index)? else {
            return Ok(None);
        };
        spot = next;
    }
    Ok(Some(spot))
}

/// The node that child indexes lead to from another, where the path of a getDescendants leads there; else `None`. It asks at most as many
/// fills as there are steps down and to the right. `Failed`: this source failed. Every earlier cursor and spot stays, whatever is answered.
pub fn seek_match<S: Sources>(
    alloc: Global,
    bench: &mut Bench,
    s: &mut S,
    start: &NodeAt,
    way: &Way<'_>,
) -> Result<Option<Spot>, WalkFault>
    requires bench { IsBenchOf (S.view s.old) bench.old }
    requires spot { IsSpotAt (state_of (S.view s.old) bench.old) start.now.source start.now.spot }
    requires op { way.now.op < length (plan_value (plan_of bench.old)).ops }
    requires visit { (path : Form) × IsVisitAlong (plan_value (plan_of bench.old)).ops way.now.op path }
    requires some { 0 < length way.now.steps.now }
    ensures sought { Sought S.view S.came_from (reach way.now.steps.now) s.old bench.old s.new bench.new }
    ensures cause { HasCause (ops_of (state_of (S.view s.old) bench.old)) (S.view s.old) (S.view s.new) result }
    ensures spot { let old = state_of (S.view s.old) bench.old in let new = state_of (S.view s.new) bench.new in let from = start.now in
        IfOk result (λ r. IfSome r (StandsAt old new from.source (place_in old.world from.source from.spot ++ way.now.steps.now))) }
    ensures answer { let old = state_of (S.view s.old) bench.old in let from = place_in old.world start.now.source start.now.spot in
        (path : Form) → IsVisitAlong (ops_of old) way.now.op path
        → IfOk result (GivesMatch old path start.now.source from (from ++ way.now.steps.now)) }
{
    let source = start.source;
    let mut spot = start.spot;
    let mut states = bench.automaton(way.op).start();
    for index in way.steps {
        let node = NodeAt { source, spot };
        let Some(next) = child_at(alloc, bench, s, &node, *index)? else {
            return Ok(None);
        };
        let label = bench.label(source, &next);
        states = bench.automaton(way.op).step(states, label);
        spot = next;
    }
    if bench.automaton(way.op).accepts(states) {
        Ok(Some(spot))
    } else {
        Ok(None)
    }
}
