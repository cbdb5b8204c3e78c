// The next binding of an operator that passes on some bindings of its input.
ghost use Rattle.std.specs.Prelude.{◌≡◌, ◌<◌, ◌≤◌, ◌⊎◌, [], IsTrue, IfOk, IfErr, OnErr, length, slice_index_or};
ghost use Rattle.lxp_core.specs.declared.fault.WalkFault.TheVariants.{OutOfMemory};
ghost use Rattle.plan_core.specs.Shapes.{filters, passes_on};
ghost use Rattle.lazy_binding.specs.Cursors.{has_row};
ghost use Rattle.lazy_binding.specs.Parts.{operators, shape_walked, IsFixed};
ghost use Rattle.lazy_binding.specs.Reading.{HasStand};
ghost use Rattle.lazy_steps.specs.Firsts.{GoesOnFrom, IsSeenAt, Noted, input_of};
ghost use Rattle.lazy_steps.specs.Steps.{CanWalk, AdvancedOn, KeepsFirsts};

use crate::firsts::note_key;
use crate::steps::advance;
use lazy_binding::growth::resume;
use lazy_binding::{Growing, Position, Walk, inside, put, seen_up_to};
use lxp_core::{Sources, WalkFault};
use mix_tree::{Key, Test};
use std::alloc::Global;
use std::rc::Rc;
use tree_buffer::spots_are_one;

/// A select: its input, and the comparison that its bindings meet.
#[derive(Clone, Copy)]
pub(crate) struct Filter<'a> {
    pub(crate) walk: Walk<'a>,
    pub(crate) input: usize,
    pub(crate) test: &'a Test,
}

impl<'a> Filter<'a> {
    /// A select of this input and comparison.
    pub(crate) fn new(walk: Walk<'a>, input: u32, test: &'a Test) -> Filter<'a>
        ensures { result ≡ record { walk = walk.entry; input = input; test = test.entry } }
    {
        Filter {
            walk,
            input: input as usize,
            test,
        }
    }

    /// The next binding of the input of which the comparison holds.
    #[cycle(walk)]
    #[inline(never)]
    pub(crate) fn next<S: Sources>(
        &self,
        alloc: Global,
        growing: &mut Growing,
        s: &mut S,
        at: &Position,
    ) -> Result<Option<Rc<Position>>, WalkFault>
        requires can { CanWalk (S.view s.old) growing.old self.now.walk at.now }
        requires is { shape_walked self.now.walk ≡ passes_on self.now.input (filters self.now.test.now) }
        ensures { AdvancedOn S.view S.came_from self.now.walk at.now s.old growing.old s.new growing.new result }
    {
        let input = Walk {
            fixed: self.walk.fixed,
            op: self.input,
        };
        let mut before = inside(alloc, at)?;
        'bindings: loop {
            let Some(below) = advance(alloc, input, growing, s, &before)? else {
                return Ok(None);
            };
            if input.passes(growing, &below, self.test) {
                return Ok(Some(put(alloc, Position::Pass(below))?));
            }
            before = below;
        }
    }
}

/// The position of the input from which a walk over first bindings goes on: at the last member that was found of the group at hand, or where the
/// input stands.
#[inline(never)]
fn resumed(
    alloc: Global,
    growing: &Growing,
    op: usize,
    at: &Position,
) -> Result<Rc<Position>, WalkFault>
    requires { op < length growing.now.walked.reached.items }
    ensures err { IfErr result (λ e. e ≡ OutOfMemory) }
    ensures ok { IfOk result (λ r. GoesOnFrom growing.now.walked.reached.items op at.now r.value) }
{
    match resume(growing, op, at)? {
        Some(later) => inside(alloc, &later),
        None => inside(alloc, at),
    }
}

/// A project, or a groupBy with keys: its input, and the keys by which it drops bindings that are the same.
#[derive(Clone, Copy)]
pub(crate) struct Distinct<'a> {
    pub(crate) walk: Walk<'a>,
    pub(crate) input: usize,
    pub(crate) keys: &'a [Key],
}

impl<'a> Distinct<'a> {
    /// A project or a groupBy of this input, by these keys.
    pub(crate) fn new(walk: Walk<'a>, input: u32, keys: &'a [Key]) -> Distinct<'a>
        ensures { result ≡ record { walk = walk.entry; input = input; keys = keys.entry } }
    {
        Distinct {
            walk,
            input: input as usize,
            keys,
        }
    }

    /// How many keys are seen up to the input's binding at a position, where its keys are new after the first few; where they are the newest of all,
    /// they are noted. `None`: they were seen.
    #[inline(never)]
    fn seen_at(
        &self,
        alloc: Global,
        growing: &mut Growing,
        below: &Rc<Position>,
        count: usize,
    ) -> Result<Option<usize>, WalkFault>
        requires fixed { IsFixed self.now.walk.fixed.now }
        requires op { self.now.walk.op < length (operators self.now.walk.fixed.now) }
        requires is { KeepsFirsts self.now.walk self.now.input self.now.keys.now }
        requires cursor { HasStand growing.old (input_of self.now) below.now.value }
        requires row { IsTrue (has_row below.now.value) }
        requires count { count ≤ length (slice_index_or growing.old.seen.items self.now.walk.op []) }
        ensures memory { IfErr result (λ e. e ≡ OutOfMemory) }
        ensures err { OnErr result ((growing.new ≡ growing.old) ⊎ Noted growing.old growing.new self.now below.now.value count) }
        ensures ok { IfOk result (IsSeenAt growing.old growing.new self.now below.now.value count) }
    {
        let input = Walk {
            fixed: self.walk.fixed,
            op: self.input,
        };
        let key = input.key_of(alloc, growing, below, self.keys)?;
        note_key(&mut growing.seen, self.walk.op, key, count)
    }

    /// The next binding of the input whose keys were not seen up to here. The members of a group that was walked aren't gone through again.
    #[cycle(walk)]
    #[inline(never)]
    pub(crate) fn next<S: Sources>(
        &self,
        alloc: Global,
        growing: &mut Growing,
        s: &mut S,
        at: &Position,
    ) -> Result<Option<Rc<Position>>, WalkFault>
        requires can { CanWalk (S.view s.old) growing.old self.now.walk at.now }
        requires is { KeepsFirsts self.now.walk self.now.input self.now.keys.now }
        ensures { AdvancedOn S.view S.came_from self.now.walk at.now s.old growing.old s.new growing.new result }
    {
        let input = Walk {
            fixed: self.walk.fixed,
            op: self.input,
        };
        let count = seen_up_to(at);
        let mut before = resumed(alloc, growing, self.walk.op, at)?;
        spots_are_one();
        'bindings: loop {
            let Some(below) = advance(alloc, input, growing, s, &before)? else {
                return Ok(None);
            };
            if let Some(seen) = self.seen_at(alloc, growing, &below, count)? {
                return Ok(Some(put(alloc, Position::First(below, seen))?));
            }
            before = below;
        }
    }
}
