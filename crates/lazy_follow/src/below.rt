// The node at a place below a source's node, by steps down and to the right.
ghost use Rattle.std.specs.Prelude.{IfOk};
ghost use Rattle.lazy_steps.specs.Steps.{HasCause};
ghost use Rattle.lazy_plan.specs.Bench.{state_of, IsBenchOf, ops_of, IsSpotAt};
ghost use Rattle.lazy_seek.specs.Reach.{reach};
ghost use Rattle.lazy_seek.specs.Seeks.{Sought};
ghost use Rattle.lazy_follow.specs.Below.{GivesBelow};

use lazy_plan::{Bench, WalkFault};
use lazy_seek::{NodeAt, child_at};
use lxp_core::Sources;
use std::alloc::Global;
use tree_buffer::Spot;

/// The node that child indexes lead to from another; `None` where there is none. It asks at most as many fills as there are steps down and to the right.
/// `Failed`: this source failed. Every earlier cursor and spot stays, whatever is answered.
pub(crate) fn node_below<S: Sources>(
    alloc: Global,
    bench: &mut Bench,
    s: &mut S,
    from: &NodeAt,
    steps: &[u64],
) -> Result<Option<Spot>, WalkFault>
    requires bench { IsBenchOf (S.view s.old) bench.old }
    requires spot { IsSpotAt (state_of (S.view s.old) bench.old) from.now.source from.now.spot }
    ensures sought { Sought S.view S.came_from (reach steps.now) s.old bench.old s.new bench.new }
    ensures cause { HasCause (ops_of (state_of (S.view s.old) bench.old)) (S.view s.old) (S.view s.new) result }
    ensures answer { let old = state_of (S.view s.old) bench.old in let new = state_of (S.view s.new) bench.new in
        IfOk result (GivesBelow old new from.now steps.now) }
{
    let source = from.source;
    let mut spot = from.spot;
    for index in steps {
        let node = NodeAt { source, spot };
        let Some(next) = child_at(alloc, bench, s, &node, *index)? else {
            return Ok(None);
        };
        spot = next;
    }
    Ok(Some(spot))
}
