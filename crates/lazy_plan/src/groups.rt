// The groups of a groupBy by keys: where one begins, and the members of one that ends at the first other key.

use crate::bench::Bench;
use crate::cursor::Cursor;
use lazy_binding::growth::reach;
use lazy_binding::{Reached, Walk, seen_up_to, share};
use lazy_steps::advance;
use lxp_core::{Sources, WalkFault};
use plan_forms::{group_keys, input_of};
use std::alloc::{AllocError, Global};
use tree_buffer::spots_are_one;

/// A group from a member of it on: the operator that makes it, its number among those of the operator, its first member, and the one from which
/// it is walked, with its place.
#[derive(Clone, Copy)]
pub struct GroupFrom<'a> {
    pub op: u32,
    pub number: usize,
    pub first: &'a Cursor,
    pub at: &'a Cursor,
    /// The place of the member from which it is walked, counted from 0.
    pub place: usize,
}

impl Bench {
    ghost use Rattle.std.specs.Prelude.{◌≡◌, ◌<◌, IsTrue, IfOk, length};
    ghost use Rattle.lxp_core.specs.View.{View};
    ghost use Rattle.plan_core.specs.PlanMade.{plan_value};
    ghost use Rattle.plan_core.specs.ByNumber.{op_at};
    ghost use Rattle.plan_forms.specs.Forms.{form, gathers_groups, input_at};
    ghost use Rattle.lazy_plan.specs.Bench.{state_of, plan_of, IsBenchOf, IsCursor, IsUnder};
    ghost use Rattle.lazy_plan.specs.Groups.{stops_at, IsGroup, MemberWalked};

    /// The group at a cursor of a groupBy by keys: the cursor of the input at its first member, and its number.
    pub fn group_at(
        &self,
        alloc: Global,
        op: u32,
        c: &Cursor,
    ) -> Result<(Cursor, usize), AllocError>
        requires op { op < length (plan_value (plan_of self.now)).ops }
        requires cursor { (view : View) × IsBenchOf view self.now × IsCursor (state_of view self.now) op c.now }
        requires is { form (op_at (plan_value (plan_of self.now)).ops op) ≡ gathers_groups }
        ensures under { IfOk result (λ r. (view : View) → let st = state_of view self.now in
            IsBenchOf view self.now → IsCursor st op c.now → IsUnder st op c.now (input_at (plan_value (plan_of self.now)).ops op) r.0) }
        ensures group { IfOk result (λ r. (view : View) → let st = state_of view self.now in
            IsBenchOf view self.now → IsCursor st op c.now → IsGroup st op r.1 r.0 r.0 0) }
    {
        let input = input_of(&self.fixed.plan, op);
        let first = self.under(alloc, op, c, input)?;
        Ok((first, seen_up_to(&c.position)))
    }

    /// The next member of a group after another, where the groups of its operator end at the first other key; `None` where there is none.
    /// `Failed`: this source failed. Every earlier cursor and spot stays, whatever is answered. The operator's next binding is looked for after
    /// the last member that was found.
    pub fn next_member<S: Sources>(
        &mut self,
        alloc: Global,
        s: &mut S,
        group: &GroupFrom<'_>,
    ) -> Result<Option<Cursor>, WalkFault>
        requires op { group.now.op < length (plan_value (plan_of self.old)).ops }
        requires bench { IsBenchOf (S.view s.old) self.old }
        requires is { form (op_at (plan_value (plan_of self.old)).ops group.now.op) ≡ gathers_groups }
        requires stops { IsTrue (stops_at (plan_value (plan_of self.old)).ops group.now.op) }
        requires group { let g = group.now in IsGroup (state_of (S.view s.old) self.old) g.op g.number g.first.now g.at.now g.place }
        ensures { MemberWalked S.view S.came_from group.now s.old self.old s.new self.new result }
    {
        let below = input_of(&self.fixed.plan, group.op);
        let input = Walk {
            fixed: &self.fixed,
            op: below as usize,
        };
        let op = group.op as usize;
        let at = group.at;
        match advance(alloc, input, &mut self.growing, s, &at.position)? {
            None => Ok(None),
            Some(position) => {
                let keys = group_keys(&input.fixed.plan, group.op);
                let key = input.key_of(alloc, &self.growing, &position, keys)?;
                spots_are_one();
                let keys_seen = &self.growing.seen[op];
                if !keys_seen.stands_at(group.number.saturating_sub(1), &key) {
                    return Ok(None);
                }
                let below = share(&position)?;
                let seen = group.number;
                reach(&mut self.growing.walked, op, Reached { below, seen });
                Ok(Some(Cursor { position }))
            }
        }
    }
}
