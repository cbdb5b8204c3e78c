// The next group of a groupBy whose members don't stand side by side, and one more of their members.
ghost use Rattle.std.specs.Prelude.{◌≡◌, ◌<◌, [], IfErr, IfOk, OnOk, OnErr, length, slice_index_or};
ghost use Rattle.lxp_core.specs.declared.fault.WalkFault.TheVariants.{OutOfMemory};
ghost use Rattle.lazy_binding.specs.Bench.{IsBench};
ghost use Rattle.lazy_binding.specs.Gathered.{IsGatheredBy};
ghost use Rattle.lazy_binding.specs.Growth.{groups_in, OthersGathered};
ghost use Rattle.lazy_binding.specs.Parts.{operators, world_of, IsFixed};
ghost use Rattle.lazy_steps.specs.Gathers.{GathersGroups, GrewGroups, IsNextGroup};
ghost use Rattle.lazy_steps.specs.Steps.{CanWalk, AdvancedOn, GrowsAt};

use crate::steps::advance;
use lazy_binding::growth::end_groups;
use lazy_binding::{Growing, KeyTuple, Position, SeenKeys, Walk, Walked, put, seen_up_to, share};
use lxp_core::{Sources, WalkFault};
use mix_tree::Key;
use std::alloc::Global;
use std::rc::Rc;
use tree_buffer::spots_are_one;

/// A groupBy whose groups end with its input: its input, and its keys.
#[derive(Clone, Copy)]
pub struct Gather<'a> {
    pub walk: Walk<'a>,
    pub input: usize,
    pub keys: &'a [Key],
}

/// An event of an input: where it stands, and what the keys compare of it.
#[derive(Drop)]
struct KeyEvent {
    below: Rc<Position>,
    key: KeyTuple,
}

/// An event of an operator's input is one more member of the group of its key, or the first of a new one.
fn add_member(
    alloc: Global,
    seen: &mut Vec<SeenKeys>,
    walked: &mut Walked,
    op: usize,
    event: KeyEvent,
) -> Result<(), WalkFault>
    requires op { op < length seen.old.items }
    requires walks { op < length walked.old.gathered.items }
    requires count { length (groups_in walked.old op).groups ≡ length (slice_index_or seen.old.items op []) }
    ensures grows { GrowsAt seen.old.items seen.new.items op event.key.items }
    ensures others { OthersGathered walked.old walked.new op }
    ensures ok { let before = slice_index_or seen.old.items op [] in let after = slice_index_or seen.new.items op [] in
        OnOk result (IsGatheredBy (groups_in walked.old op) (groups_in walked.new op) before after event.key.items event.below.value) }
    ensures err { OnErr result (groups_in walked.new op ≡ groups_in walked.old op) }
    ensures kept { OnErr result (slice_index_or seen.new.items op [] ≡ slice_index_or seen.old.items op []) }
    ensures memory { IfErr result (λ e. e ≡ OutOfMemory) }
{
    let KeyEvent { below, key } = event;
    let keys = &mut seen[op];
    let gathered = &mut walked.gathered[op];
    gathered.push(alloc, keys, key, below)
}

impl<'a> Gather<'a> {
    /// A groupBy of this input, by these keys.
    pub fn new(walk: Walk<'a>, input: u32, keys: &'a [Key]) -> Gather<'a>
        ensures { result ≡ record { walk = walk.entry; input = input; keys = keys.entry } }
    {
        Gather {
            walk,
            input: input as usize,
            keys,
        }
    }

    /// The next group: one whose first member was found already, or the first to which the walk of the input comes.
    #[cycle(walk)]
    #[inline(never)]
    pub(crate) fn next<S: Sources>(
        &self,
        alloc: Global,
        growing: &mut Growing,
        s: &mut S,
        at: &Position,
    ) -> Result<Option<Rc<Position>>, WalkFault>
        requires can { CanWalk (S.view s.old) growing.old self.now.walk at.now }
        requires is { GathersGroups self.now }
        ensures { AdvancedOn S.view S.came_from self.now.walk at.now s.old growing.old s.new growing.new result }
    {
        let count = seen_up_to(at);
        'bindings: loop {
            match self.next_known(alloc, growing, count)? {
                Some(group) => return Ok(Some(group)),
                None => {
                    if !self.grow(alloc, growing, s)? {
                        return Ok(None);
                    }
                    spots_are_one();
                }
            }
        }
    }

    /// The position at the group after so many, where its first member was found; `None` exactly where it wasn't yet.
    #[inline(never)]
    fn next_known(
        &self,
        alloc: Global,
        growing: &Growing,
        count: usize,
    ) -> Result<Option<Rc<Position>>, WalkFault>
        requires { self.now.walk.op < length growing.now.walked.gathered.items }
        ensures err { IfErr result (λ e. e ≡ OutOfMemory) }
        ensures group { IfOk result (IsNextGroup (groups_in growing.now.walked self.now.walk.op) count) }
    {
        let gathered = &growing.walked.gathered[self.walk.op];
        match gathered.member(count, 0) {
            None => Ok(None),
            Some(first) => {
                let within = count < gathered.len();
                prove!(within);
                let group = Position::First(share(first)?, count + 1);
                Ok(Some(put(alloc, group)?))
            }
        }
    }

    /// One more member, the next binding of the input; `false` where there is none, and then the walk has ended. Whatever is answered, the members
    /// that were there keep their places.
    #[cycle(walk)]
    pub fn grow<S: Sources>(
        &self,
        alloc: Global,
        growing: &mut Growing,
        s: &mut S,
    ) -> Result<bool, WalkFault>
        requires fixed { IsFixed self.now.walk.fixed.now }
        requires op { self.now.walk.op < length (operators self.now.walk.fixed.now) }
        requires is { GathersGroups self.now }
        requires bench { IsBench (world_of (S.view s.old) growing.old) (operators self.now.walk.fixed.now) }
        ensures { GrewGroups S.view S.came_from self.now s.old growing.old s.new growing.new result }
    {
        let input = Walk {
            fixed: self.walk.fixed,
            op: self.input,
        };
        let gathered = &growing.walked.gathered[self.walk.op];
        if gathered.ended() {
            return Ok(false);
        }
        let last = gathered.last(alloc)?;
        match advance(alloc, input, growing, s, &last)? {
            None => {
                end_groups(&mut growing.walked, self.walk.op);
                Ok(false)
            }
            Some(below) => {
                let key = input.key_of(alloc, growing, &below, self.keys)?;
                spots_are_one();
                let event = KeyEvent { below, key };
                add_member(
                    alloc,
                    &mut growing.seen,
                    &mut growing.walked,
                    self.walk.op,
                    event,
                )?;
                Ok(true)
            }
        }
    }
}
