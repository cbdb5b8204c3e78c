// The members of lists that are gathered from bindings.
ghost use Rattle.std.specs.Prelude.{◌≡◌, ◌<◌, suc, IfOk, MatchOption, length};
ghost use Rattle.lazy_plan.specs.Bench.{state_of, IsBenchOf, ops_of, IsCursor};
ghost use Rattle.lazy_steps.specs.Steps.{HasCause};
ghost use Rattle.plan_forms.specs.Forms.{gathers_groups, input_at};
ghost use Rattle.lazy_site.specs.Ids.{Stands, GathersAll, IsRest, left, ahead_from};
ghost use Rattle.lazy_site.specs.Steps.{Falls};
ghost use Rattle.lazy_site.specs.Standing.{GroupTurnsIn, MembersTurnIn};
ghost use Rattle.lazy_site.specs.Heights.{KeepsRank};
ghost use Rattle.lazy_plan.specs.Groups.{GivesMember, IsGroup, group_events};
ghost use Rattle.lazy_site.specs.Calls.{Between, GivesFrom, TurnsGroup, TurnsMembers, WalkedOver, WalkedTo, after_group, after_members, trees_of_group, trees_of_members};

use crate::entering::{group_member, list_member};
use crate::sites::{MembersFrom, Rest, Turn, share};
use lazy_plan::{Bench, Cursor, GroupFrom, WalkFault};
use lxp_core::Sources;
use plan_forms::input_of;
use std::alloc::{AllocError, Global};
use std::rc::Rc;

/// The next member of a group after one. Where bindings of one group stand side by side it ends at the first of another.
fn next_of_group<S: Sources>(
    alloc: Global,
    bench: &mut Bench,
    s: &mut S,
    group: &GroupFrom<'_>,
) -> Result<Option<Cursor>, WalkFault>
    requires bench { IsBenchOf (S.view s.old) bench.old }
    requires first { Stands (state_of (S.view s.old) bench.old) group.now.op gathers_groups group.now.first.now }
    requires from { Stands (state_of (S.view s.old) bench.old) group.now.op gathers_groups group.now.at.now }
    requires group { let g = group.now in IsGroup (state_of (S.view s.old) bench.old) g.op g.number g.first.now g.at.now g.place }
    ensures walked { WalkedOver S.view S.came_from s.old bench.old s.new bench.new (λ st. group_events st group.now) }
    ensures cause { HasCause (ops_of (state_of (S.view s.old) bench.old)) (S.view s.old) (S.view s.new) result }
    ensures answer { Between S.view s.old bench.old s.new bench.new (λ old new. IfOk result (GivesMember old new group.now)) }
{
    if bench.stops(group.op) {
        bench.next_member(alloc, s, group)
    } else {
        bench.next_gathered(alloc, s, group)
    }
}

/// The next place of a group; it fails only where counts are exhausted.
fn place_after(place: usize) -> Result<usize, AllocError>
    ensures { IfOk result (λ next. next ≡ suc place) }
{
    place.checked_add(1).ok_or(AllocError)
}

/// The first binding of an operator, or the next one after a cursor where one is given.
fn after<S: Sources>(
    alloc: Global,
    bench: &mut Bench,
    s: &mut S,
    op: u32,
    at: &Option<Cursor>,
) -> Result<Option<Cursor>, WalkFault>
    requires bench { IsBenchOf (S.view s.old) bench.old }
    requires op { op < length (ops_of (state_of (S.view s.old) bench.old)) }
    requires at { MatchOption at.now (Unit {0}) (λ c. IsCursor (state_of (S.view s.old) bench.old) op c) }
    ensures walked { WalkedOver S.view S.came_from s.old bench.old s.new bench.new (λ st. ahead_from st op at.now) }
    ensures cause { HasCause (ops_of (state_of (S.view s.old) bench.old)) (S.view s.old) (S.view s.new) result }
    ensures answer { Between S.view s.old bench.old s.new bench.new (λ old new. IfOk result (GivesFrom old new op at.now)) }
{
    match at {
        None => bench.first(alloc, s, op),
        Some(c) => bench.next(alloc, s, op, c),
    }
}

/// One turn over the members of a list of all bindings after a cursor, and over what comes after the list.
pub(crate) fn members<S: Sources>(
    alloc: Global,
    bench: &mut Bench,
    s: &mut S,
    list: &MembersFrom<'_>,
    up: &Rc<Rest>,
) -> Result<Turn, WalkFault>
    requires bench { IsBenchOf (S.view s.old) bench.old }
    requires gathers { GathersAll (state_of (S.view s.old) bench.old) list.now.op }
    requires at { let st = state_of (S.view s.old) bench.old in
        MatchOption list.now.at.now (Unit {0}) (λ c. IsCursor st (input_at (ops_of st) list.now.op) c) }
    requires up { IsRest (state_of (S.view s.old) bench.old) up.now.value }
    ensures walked { WalkedTo S.view S.came_from s.old bench.old s.new bench.new (λ st. trees_of_members st list.now up.now.value) }
    ensures cause { HasCause (ops_of (state_of (S.view s.old) bench.old)) (S.view s.old) (S.view s.new) result }
    ensures answer { Between S.view s.old bench.old s.new bench.new (λ old new. IfOk result (TurnsMembers old new list.now up.now.value)) }
    ensures left { Between S.view s.old bench.old s.new bench.new (λ old new. IfOk result (Falls (after_members old list.now up.now.value) new)) }
    ensures rank { IfOk result (KeepsRank list.now.op up.now.value) }
    ensures list { Between S.view s.old bench.old s.new bench.new (λ old new. IfOk result (MembersTurnIn old new list.now up.now.value)) }
{
    let input = input_of(bench.plan(), list.op);
    match after(alloc, bench, s, input, list.at)? {
        None => Ok(Turn::On(share(up)?)),
        Some(c) => Ok(Turn::At(list_member(alloc, bench, list.op, &c, up)?)),
    }
}

/// One turn over the members of a group after a cursor, and over what comes after the group.
pub(crate) fn group<S: Sources>(
    alloc: Global,
    bench: &mut Bench,
    s: &mut S,
    group: &GroupFrom<'_>,
    up: &Rc<Rest>,
) -> Result<Turn, WalkFault>
    requires bench { IsBenchOf (S.view s.old) bench.old }
    requires first { Stands (state_of (S.view s.old) bench.old) group.now.op gathers_groups group.now.first.now }
    requires at { Stands (state_of (S.view s.old) bench.old) group.now.op gathers_groups group.now.at.now }
    requires group { let g = group.now in IsGroup (state_of (S.view s.old) bench.old) g.op g.number g.first.now g.at.now g.place }
    requires up { IsRest (state_of (S.view s.old) bench.old) up.now.value }
    ensures walked { WalkedTo S.view S.came_from s.old bench.old s.new bench.new (λ st. trees_of_group st group.now up.now.value) }
    ensures cause { HasCause (ops_of (state_of (S.view s.old) bench.old)) (S.view s.old) (S.view s.new) result }
    ensures answer { Between S.view s.old bench.old s.new bench.new (λ old new. IfOk result (TurnsGroup old new group.now up.now.value)) }
    ensures left { Between S.view s.old bench.old s.new bench.new (λ old new. IfOk result (Falls (after_group old group.now up.now.value) new)) }
    ensures rank { IfOk result (KeepsRank group.now.op up.now.value) }
    ensures list { Between S.view s.old bench.old s.new bench.new (λ old new. IfOk result (GroupTurnsIn old new group.now up.now.value)) }
{
    match next_of_group(alloc, bench, s, group)? {
        None => Ok(Turn::On(share(up)?)),
        Some(c) => {
            let place = place_after(group.place)?;
            let member = GroupFrom {
                at: &c,
                place,
                ..*group
            };
            Ok(Turn::At(group_member(alloc, bench, &member, up)?))
        }
    }
}
