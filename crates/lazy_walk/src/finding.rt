// The way to the node that a text names, found node by node.
ghost use Rattle.std.specs.Prelude.{◌≡◌, ◌<◌, ◌+◌, ◌^◌, MatchOption, option_map};
ghost use Rattle.lazy_walk.specs.Stages.{passed_by_levels, passed_by_step};

use crate::ids::WalkedNode;
use crate::leading::levels_led;
use crate::stage::{Passed, Stage};
use crate::walk::Walk;
use lazy_follow::{Evidence, Mark};
use lazy_plan::WalkFault;
use lazy_site::Site;
use lxp_core::Sources;
use node_text::Level;
use plan_core::tolled_is_document;
use std::alloc::Global;

/// Levels of a text that are ahead of a walk, and for each of them evidence of the member to which it leads, if it leads to one.
#[derive(Clone, Copy)]
pub(crate) struct LevelsAhead<'a> {
    pub(crate) levels: &'a [Level],
    pub(crate) members: &'a [Option<Evidence>],
}

/// A node to which the first of some levels lead, and how many these are.
#[derive(Drop)]
pub(crate) struct Led {
    pub(crate) node: WalkedNode,
    pub(crate) count: usize,
}

/// The node to which more levels lead, as one on the way.
fn passed_levels(led: Option<Led>, from: Stage) -> Option<Passed>
    requires fits { MatchOption led (Unit {0}) (λ led. from.levels + led.count < 2 ^ 64) }
    ensures { result ≡ option_map (passed_by_levels from) led }
{
    match led {
        None => None,
        Some(led) => {
            let levels = from.levels + led.count;
            let stage = Stage { levels, steps: 0 };
            Some(Passed {
                node: led.node,
                stage,
            })
        }
    }
}

/// The node to which one more step below the levels leads, as one on the way.
fn passed_step(child: Option<WalkedNode>, from: Stage) -> Option<Passed>
    requires fits { from.steps + 1 < 2 ^ 64 }
    ensures { result ≡ option_map (passed_by_step from) child }
{
    match child {
        None => None,
        Some(node) => {
            let levels = from.levels;
            let steps = from.steps + 1;
            let stage = Stage { levels, steps };
            Some(Passed { node, stage })
        }
    }
}

impl Walk {
    ghost use Rattle.std.specs.Prelude.{◌<◌, ◌≤◌, IsTrue, IfOk, MatchOption, length};
    ghost use Rattle.lxp_core.specs.View.{View};
    ghost use Rattle.lazy_follow.specs.Marks.{AreMembers, IsMark};
    ghost use Rattle.lazy_plan.specs.Bench.{ops_of, told};
    ghost use Rattle.lazy_steps.specs.Steps.{HasCause};
    ghost use Rattle.lazy_walk.specs.Finding.{ChildLed, GivesFurther, GoesOnTo, LeadsToNode, SiblingLed, Steps};
    ghost use Rattle.lazy_walk.specs.Stages.{IsStage};
    ghost use Rattle.lazy_walk.specs.Walks.{state_of, IsWalkOf, HasWalked};
    ghost use Rattle.lazy_walk.specs.Places.{IsNode};

    /// How many of the levels ahead lead to a node within its list; `None` where they lead to another node of it.
    fn levels_led_to(&self, n: &WalkedNode, ahead: &LevelsAhead<'_>) -> Option<usize>
        requires walk { (view : View) × IsWalkOf view self.now × (let st = state_of view self.now in
            IsNode st n.now × AreMembers st ahead.now.levels.now ahead.now.members.now) }
        ensures within { MatchOption result (Unit {0}) (λ count. (0 < count) × (count ≤ length ahead.now.levels.now)) }
        ensures leads { (view : View) → IsWalkOf view self.now → let st = state_of view self.now in
            AreMembers st ahead.now.levels.now ahead.now.members.now → IsTrue (told st) → LeadsToNode st n.now ahead.now result }
    {
        match &n.site {
            Site::Root => None,
            Site::Inside(_, _) => None,
            Site::Item { rest, .. } => levels_led(&self.bench, rest, ahead.levels, ahead.members),
        }
    }

    /// The node to which the first of the levels ahead lead, among a node and its later siblings; `None` where they lead to none of these.
    fn sibling_led<S: Sources>(
        &mut self,
        alloc: Global,
        s: &mut S,
        first: WalkedNode,
        ahead: &LevelsAhead<'_>,
    ) -> Result<Option<Led>, WalkFault>
        requires walk { IsWalkOf (S.view s.old) self.old }
        requires node { IsNode (state_of (S.view s.old) self.old) first }
        requires members { AreMembers (state_of (S.view s.old) self.old) ahead.now.levels.now ahead.now.members.now }
        ensures { Steps S.view S.came_from s.old self.old s.new self.new (SiblingLed first ahead.now) result }
    {
        tolled_is_document();
        let mut node = first;
        'siblings: loop {
            match self.levels_led_to(&node, ahead) {
                Some(count) => return Ok(Some(Led { node, count })),
                None => match self.right(alloc, s, &node)? {
                    None => return Ok(None),
                    Some(next) => node = next,
                },
            }
        }
    }

    /// The node to which the first of the levels ahead lead, among the children of a node; `None` where they lead to none of these.
    fn child_led<S: Sources>(
        &mut self,
        alloc: Global,
        s: &mut S,
        n: &WalkedNode,
        ahead: &LevelsAhead<'_>,
    ) -> Result<Option<Led>, WalkFault>
        requires walk { IsWalkOf (S.view s.old) self.old }
        requires node { IsNode (state_of (S.view s.old) self.old) n.now }
        requires members { AreMembers (state_of (S.view s.old) self.old) ahead.now.levels.now ahead.now.members.now }
        ensures { Steps S.view S.came_from s.old self.old s.new self.new (ChildLed n.now ahead.now) result }
    {
        tolled_is_document();
        match self.down(alloc, s, n)? {
            None => Ok(None),
            Some(first) => self.sibling_led(alloc, s, first, ahead),
        }
    }

    /// The next node on the way to the one that a text names, from a node to which a part of the text leads: a child of it. `None`: none is further on the
    /// way, or, over sources that tell their documents, the text names no node. `at` will stand on it. `Failed`: this source failed. Every earlier identifier
    /// stays, whatever is answered.
    pub fn led_on<S: Sources>(
        &mut self,
        alloc: Global,
        s: &mut S,
        n: &WalkedNode,
        mark: &Mark,
        from: Stage,
    ) -> Result<Option<Passed>, WalkFault>
        requires walk { IsWalkOf (S.view s.old) self.old }
        requires node { IsNode (state_of (S.view s.old) self.old) n.now }
        requires mark { IsMark (state_of (S.view s.old) self.old) mark.now }
        requires stage { IsStage mark.now.data from }
        ensures walked { HasWalked S.view S.came_from s.old self.old s.new self.new }
        ensures cause { HasCause (ops_of (state_of (S.view s.old) self.old)) (S.view s.old) (S.view s.new) result }
        ensures further { let old = state_of (S.view s.old) self.old in let new = state_of (S.view s.new) self.new in
            IfOk result (GivesFurther old new n.now mark.now.data from) }
        ensures leads { let old = state_of (S.view s.old) self.old in let new = state_of (S.view s.new) self.new in
            IsTrue (told old) → GoesOnTo old new n.now mark.now.data from result }
    {
        tolled_is_document();
        let levels: &[Level] = &mark.data.levels;
        let members: &[Option<Evidence>] = &mark.members;
        if from.levels < levels.len() {
            let ahead = LevelsAhead {
                levels: &levels[from.levels..],
                members: &members[from.levels..],
            };
            return Ok(passed_levels(self.child_led(alloc, s, n, &ahead)?, from));
        }
        let steps = mark.data.inside.steps();
        if from.steps == steps.len() {
            return Ok(None);
        }
        Ok(passed_step(self.child_at(alloc, s, n, steps[from.steps])?, from))
    }
}
