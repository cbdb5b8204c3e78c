// The next binding of a join, step by step over its events.
ghost use Rattle.std.specs.Prelude.{◌≡◌, ◌<◌, IsTrue, length};
ghost use Rattle.plan_core.specs.Shapes.{pairs_up};
ghost use Rattle.lazy_steps.specs.Steps.{CanStep, CanWalk, StepsOn, StepsLeft, AdvancedOn};
ghost use Rattle.lazy_steps.specs.Beside.{StepsBeside};
ghost use Rattle.lazy_binding.specs.Cursors.{has_row};
ghost use Rattle.lazy_binding.specs.Parts.{operators, shape_walked};

use crate::step::{Step, here};
use crate::steps::advance;
use lazy_binding::{Growing, Position, Walk, put};
use lxp_core::{Sources, WalkFault};
use mix_tree::Test;
use std::alloc::Global;
use std::rc::Rc;

/// A join: its inputs, and the comparisons that its bindings meet.
#[derive(Clone, Copy)]
pub(crate) struct Join<'a> {
    pub(crate) walk: Walk<'a>,
    pub(crate) left: usize,
    pub(crate) right: usize,
    pub(crate) tests: &'a [Test],
}

impl<'a> Join<'a> {
    /// A join of these inputs, with these comparisons.
    pub(crate) fn new(walk: Walk<'a>, left: u32, right: u32, tests: &'a [Test]) -> Join<'a>
        ensures { result ≡ record { walk = walk.entry; left = left; right = right; tests = tests.entry } }
    {
        Join {
            walk,
            left: left as usize,
            right: right as usize,
            tests,
        }
    }

    /// The next pair of which all comparisons hold.
    #[cycle(walk)]
    #[inline(never)]
    pub(crate) fn next<S: Sources>(
        &self,
        alloc: Global,
        growing: &mut Growing,
        s: &mut S,
        at: &Position,
    ) -> Result<Option<Rc<Position>>, WalkFault>
        requires can { CanWalk (S.view s.old) growing.old self.now.walk at.now }
        requires is { shape_walked self.now.walk ≡ pairs_up self.now.left self.now.right self.now.tests.now }
        ensures { AdvancedOn S.view S.came_from self.now.walk at.now s.old growing.old s.new growing.new result }
    {
        let mut later: Option<Position> = None;
        'events: loop {
            match self.step(alloc, growing, s, here(&later, at))? {
                Step::Done => return Ok(None),
                Step::At(found) => return Ok(Some(put(alloc, found)?)),
                Step::On(event) => later = Some(event),
            }
        }
    }

    /// The next member of the right side beside the binding of the left, or the next binding of the left.
    #[cycle(walk)]
    fn step<S: Sources>(
        &self,
        alloc: Global,
        growing: &mut Growing,
        s: &mut S,
        at: &Position,
    ) -> Result<Step, WalkFault>
        requires can { CanWalk (S.view s.old) growing.old self.now.walk at.now }
        requires is { shape_walked self.now.walk ≡ pairs_up self.now.left self.now.right self.now.tests.now }
        ensures { StepsOn S.view S.came_from self.now.walk at.now s.old growing.old s.new growing.new result }
    {
        match at {
            Position::Pair(l, _, passed) => match self.next_known(alloc, growing, l, *passed)? {
                Some(place) => self.at_found(growing, l, place),
                None => self.next_new(alloc, growing, s, l),
            },
            _ => {
                let start = put(alloc, Position::Start)?;
                self.next_left(alloc, growing, s, &start)
            }
        }
    }

    /// Beside a binding of the left side and after all members so far: one more member after another, up to one that a look-up finds; where no more
    /// come, the next binding of the left.
    #[cycle(walk)]
    fn next_new<S: Sources>(
        &self,
        alloc: Global,
        growing: &mut Growing,
        s: &mut S,
        l: &Rc<Position>,
    ) -> Result<Step, WalkFault>
        requires can { CanStep (S.view s.old) growing.old self.now.walk.fixed.now self.now.left l.now.value }
        requires row { IsTrue (has_row l.now.value) }
        requires op { self.now.walk.op < length (operators self.now.walk.fixed.now) }
        requires is { shape_walked self.now.walk ≡ pairs_up self.now.left self.now.right self.now.tests.now }
        ensures { StepsBeside S.view S.came_from self.now l.now.value s.old growing.old s.new growing.new result }
    {
        'members: loop {
            let memo = &growing.memos[self.walk.op];
            let place = memo.len();
            if memo.ended() {
                return self.next_left(alloc, growing, s, l);
            }
            if !self.grow(alloc, growing, s)? {
                return self.next_left(alloc, growing, s, l);
            }
            if let Some(found) = self.next_known(alloc, growing, l, place)? {
                return self.at_found(growing, l, found);
            }
        }
    }

    /// The next binding of the left side, before the first of the right.
    #[cycle(walk)]
    fn next_left<S: Sources>(
        &self,
        alloc: Global,
        growing: &mut Growing,
        s: &mut S,
        l: &Rc<Position>,
    ) -> Result<Step, WalkFault>
        requires can { CanStep (S.view s.old) growing.old self.now.walk.fixed.now self.now.left l.now.value }
        requires op { self.now.walk.op < length (operators self.now.walk.fixed.now) }
        requires is { shape_walked self.now.walk ≡ pairs_up self.now.left self.now.right self.now.tests.now }
        ensures { let k = self.now in
            StepsLeft S.view S.came_from k.walk k.left k.right k.tests.now l.now.value s.old growing.old s.new growing.new result }
    {
        let left = Walk {
            fixed: self.walk.fixed,
            op: self.left,
        };
        match advance(alloc, left, growing, s, l)? {
            None => Ok(Step::Done),
            Some(l) => {
                let start = put(alloc, Position::Start)?;
                Ok(Step::On(Position::Pair(l, start, 0)))
            }
        }
    }
}
