// The members of groups that end with their input: all that were found for one group or another stand in one list for each, and one walk finds more.
ghost use Rattle.std.specs.Prelude.{◌≡◌, ◌<◌, false, length};
ghost use Rattle.lazy_binding.specs.Bench.{IsBench};
ghost use Rattle.lazy_binding.specs.Parts.{operators, world_of, IsFixed};
ghost use Rattle.lazy_binding.specs.World.{IsFound};
ghost use Rattle.lazy_steps.specs.Gathers.{GathersGroups};
ghost use Rattle.lazy_plan.specs.Members.{NextWalked};

use crate::bench::Bench;
use crate::cursor::Cursor;
use crate::groups::GroupFrom;
use lazy_binding::{Growing, Position, Walk, share};
use lazy_steps::Gather;
use lxp_core::{Sources, WalkFault};
use plan_forms::{group_keys, input_of};
use std::alloc::Global;
use std::rc::Rc;

// The member at the next place of a group: one that was found already, or the first of them to which the walk of the input comes.
fn next_found<S: Sources>(
    alloc: Global,
    growing: &mut Growing,
    s: &mut S,
    gathers: &Gather<'_>,
    group: &GroupFrom<'_>,
) -> Result<Option<Rc<Position>>, WalkFault>
    requires fixed { IsFixed gathers.now.walk.fixed.now }
    requires op { gathers.now.walk.op < length (operators gathers.now.walk.fixed.now) }
    requires is { GathersGroups gathers.now }
    requires bench { IsBench (world_of (S.view s.old) growing.old) (operators gathers.now.walk.fixed.now) }
    requires first { let g = group.now in IsFound (world_of (S.view s.old) growing.old) gathers.now.walk.op g.number 0 g.first.now }
    requires at { let g = group.now in IsFound (world_of (S.view s.old) growing.old) gathers.now.walk.op g.number g.place g.at.now }
    ensures { NextWalked S.view S.came_from gathers.now group.now s.old growing.old s.new growing.new result }
{
    let number = group.number.saturating_sub(1);
    'members: loop {
        let gathered = &growing.walked.gathered[gathers.walk.op];
        match gathered.after(number, group.place) {
            Some(member) => return Ok(Some(share(member)?)),
            None => {
                if !gathers.grow(alloc, growing, s)? {
                    return Ok(None);
                }
            }
        }
    }
}

impl Bench {
    ghost use Rattle.plan_forms.specs.Forms.{form, gathers_groups};
    ghost use Rattle.plan_core.specs.ByNumber.{op_at};
    ghost use Rattle.plan_core.specs.PlanMade.{plan_value};
    ghost use Rattle.lazy_plan.specs.Bench.{state_of, plan_of, IsBenchOf};
    ghost use Rattle.lazy_plan.specs.Groups.{stops_at, IsGroup, MemberWalked};

    /// The next member of a group after another, where members of other groups may stand between them; `None` where there is none. `Failed`:
    /// this source failed. Every earlier cursor and spot stays, whatever is answered. What was found of any group is not walked again.
    pub fn next_gathered<S: Sources>(
        &mut self,
        alloc: Global,
        s: &mut S,
        group: &GroupFrom<'_>,
    ) -> Result<Option<Cursor>, WalkFault>
        requires op { group.now.op < length (plan_value (plan_of self.old)).ops }
        requires bench { IsBenchOf (S.view s.old) self.old }
        requires is { form (op_at (plan_value (plan_of self.old)).ops group.now.op) ≡ gathers_groups }
        requires among { stops_at (plan_value (plan_of self.old)).ops group.now.op ≡ false }
        requires group { let g = group.now in IsGroup (state_of (S.view s.old) self.old) g.op g.number g.first.now g.at.now g.place }
        ensures { MemberWalked S.view S.came_from group.now s.old self.old s.new self.new result }
    {
        let input = input_of(&self.fixed.plan, group.op);
        let walk = Walk {
            fixed: &self.fixed,
            op: group.op as usize,
        };
        let keys = group_keys(&walk.fixed.plan, group.op);
        let gathers = Gather::new(walk, input, keys);
        match next_found(alloc, &mut self.growing, s, &gathers, group)? {
            None => Ok(None),
            Some(position) => Ok(Some(Cursor { position })),
        }
    }
}
