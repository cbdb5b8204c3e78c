// A member of a group, by the places of its evidence.
ghost use Rattle.std.specs.Prelude.{ℕ, List, IfOk, IfSome};
ghost use Rattle.lazy_steps.specs.Steps.{HasCause};
ghost use Rattle.lazy_plan.specs.Bench.{state_of, ops_of, IsBenchOf};
ghost use Rattle.lazy_seek.specs.Evidenced.{reaches};
ghost use Rattle.lazy_seek.specs.Seeks.{Sought};
ghost use Rattle.lazy_follow.specs.Members.{IsGroup, IsEvidenceAt, GivesMember};

use crate::agreeing::is_same_group;
use crate::evidence::Evidence;
use lazy_plan::{Bench, WalkFault};
use lazy_seek::sought;
use lxp_core::Sources;
use mix_tree::Place;
use plan_forms::{group_keys, input_of};
use std::alloc::Global;

/// A group of a groupBy in a binding: the number of the groupBy, and evidence of the binding.
#[derive(Clone, Copy)]
pub struct Group<'a> {
    pub op: u32,
    pub here: &'a Evidence,
}

/// The evidence of a member of a group that has these places; `None` where they are no right evidence of the groupBy's input, or agree by its keys with no
/// member of this group. It asks at most as many fills as the places reach. `Failed`: this source failed. Every earlier cursor and spot stays, whatever is
/// answered.
pub fn member<S: Sources>(
    alloc: Global,
    bench: &mut Bench,
    s: &mut S,
    group: &Group<'_>,
    tuple: &[Place],
) -> Result<Option<Evidence>, WalkFault>
    requires bench { IsBenchOf (S.view s.old) bench.old }
    requires group { (places : List (List ℕ)) × IsGroup (state_of (S.view s.old) bench.old) places group.now }
    ensures sought { Sought S.view S.came_from (reaches tuple.now) s.old bench.old s.new bench.new }
    ensures cause { HasCause (ops_of (state_of (S.view s.old) bench.old)) (S.view s.old) (S.view s.new) result }
    ensures spots { IfOk result (λ r. IfSome r (λ e. IsEvidenceAt (state_of (S.view s.new) bench.new) group.now.op tuple.now e)) }
    ensures answer { (places : List (List ℕ)) → let old = state_of (S.view s.old) bench.old in
        IsGroup old places group.now → IfOk result (GivesMember old places group.now tuple.now) }
{
    let input = input_of(bench.plan(), group.op);
    let Some(spots) = sought(alloc, bench, s, input, tuple)? else {
        return Ok(None);
    };
    let there = Evidence::of(alloc, bench, input, spots)?;
    if is_same_group(
        bench,
        group.here,
        &there,
        group_keys(bench.plan(), group.op),
    ) {
        Ok(Some(there))
    } else {
        Ok(None)
    }
}
