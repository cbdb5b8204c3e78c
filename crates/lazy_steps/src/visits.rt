// Calls of visits.
ghost use Rattle.std.specs.Prelude.{◌≡◌};
ghost use Rattle.lazy_binding.specs.Bench.{IsBench};
ghost use Rattle.lazy_binding.specs.World.{IsSpotIn, IsMatchIn};
ghost use Rattle.lazy_binding.specs.Cursors.{IsRead};
ghost use Rattle.lazy_steps.specs.Visits.{FindsFirst, FindsNext, StandsAtFirst, StandsAtNext};
ghost use Rattle.lazy_binding.specs.Parts.{operators, world_of};

use lazy_binding::{Fixed, Growing, Position, put, share};
use lazy_descend::DescCursor;
use lxp_core::{Sources, WalkFault};
use path_auto::Auto;
use std::alloc::Global;
use std::rc::Rc;
use tree_buffer::Spot;

/// The visits by an automaton of a plan in the source of this number.
#[derive(Clone, Copy)]
pub(crate) struct Visit<'a> {
    pub(crate) fixed: &'a Fixed,
    pub(crate) auto: &'a Auto,
    pub(crate) source: u32,
}

impl Visit<'_> {
    /// The first match below a node.
    pub(crate) fn first<S: Sources>(
        &self,
        alloc: Global,
        growing: &mut Growing,
        s: &mut S,
        start: &Spot,
    ) -> Result<Option<DescCursor>, WalkFault>
        requires bench { IsBench (world_of (S.view s.old) growing.old) (operators self.now.fixed.now) }
        requires read { IsRead (operators self.now.fixed.now) self.now.source }
        requires start { IsSpotIn (world_of (S.view s.old) growing.old) self.now.source start.now }
        ensures { FindsFirst S.view S.came_from self.now start.now s.old growing.old s.new growing.new result }
    {
        let buffer = &mut growing.buffers[self.source as usize];
        DescCursor::first(alloc, s, buffer, self.auto, start)
    }

    /// The next match of a visit after a cursor at one.
    pub(crate) fn next<S: Sources>(
        &self,
        alloc: Global,
        growing: &mut Growing,
        s: &mut S,
        at: &DescCursor,
    ) -> Result<Option<DescCursor>, WalkFault>
        requires bench { IsBench (world_of (S.view s.old) growing.old) (operators self.now.fixed.now) }
        requires read { IsRead (operators self.now.fixed.now) self.now.source }
        requires at { IsMatchIn (world_of (S.view s.old) growing.old) self.now.source at.now }
        ensures { FindsNext S.view S.came_from self.now at.now s.old growing.old s.new growing.new result }
    {
        let buffer = &mut growing.buffers[self.source as usize];
        at.next(alloc, s, buffer, self.auto)
    }

    /// The position at the first match below a node, beside a binding of the input.
    #[inline(never)]
    pub(crate) fn first_at<S: Sources>(
        &self,
        alloc: Global,
        growing: &mut Growing,
        s: &mut S,
        start: &Spot,
        below: &Rc<Position>,
    ) -> Result<Option<Rc<Position>>, WalkFault>
        requires bench { IsBench (world_of (S.view s.old) growing.old) (operators self.now.fixed.now) }
        requires read { IsRead (operators self.now.fixed.now) self.now.source }
        requires start { IsSpotIn (world_of (S.view s.old) growing.old) self.now.source start.now }
        ensures { StandsAtFirst S.view S.came_from self.now start.now below.now.value s.old growing.old s.new growing.new result }
    {
        match self.first(alloc, growing, s, start)? {
            None => Ok(None),
            Some(found) => {
                let found = Position::Found(self.source, share(below)?, found);
                Ok(Some(put(alloc, found)?))
            }
        }
    }

    /// The position at the next match after a cursor at one, beside a binding of the input.
    #[inline(never)]
    pub(crate) fn next_at<S: Sources>(
        &self,
        alloc: Global,
        growing: &mut Growing,
        s: &mut S,
        at: &DescCursor,
        below: &Rc<Position>,
    ) -> Result<Option<Rc<Position>>, WalkFault>
        requires bench { IsBench (world_of (S.view s.old) growing.old) (operators self.now.fixed.now) }
        requires read { IsRead (operators self.now.fixed.now) self.now.source }
        requires at { IsMatchIn (world_of (S.view s.old) growing.old) self.now.source at.now }
        ensures { StandsAtNext S.view S.came_from self.now at.now below.now.value s.old growing.old s.new growing.new result }
    {
        match self.next(alloc, growing, s, at)? {
            None => Ok(None),
            Some(found) => {
                let found = Position::Found(self.source, share(below)?, found);
                Ok(Some(put(alloc, found)?))
            }
        }
    }
}
