// The members of groups whose members don't stand side by side, as far as they were found.
ghost use Rattle.std.specs.Prelude.{◌≡◌, ◌<◌, ◌++◌, ◌∷◌, [], false, true, IfOk, IfErr, OnOk, OnErr, length, map, option_copied, slice_get, slice_index_or, suc};
ghost use Rattle.lazy_binding.specs.Gathered.{no_groups, IsGatheredBy, IsJoined, IsBegun};
ghost use Rattle.lazy_binding.specs.Keys.{was_seen};
ghost use Rattle.lxp_core.specs.declared.fault.WalkFault.TheVariants.{OutOfMemory};

use crate::key::{KeyTuple, SeenKeys};
use crate::position::{Position, put, share};
use lxp_core::WalkFault;
use std::alloc::Global;
use std::marker::Model;
use std::rc::Rc;

/// The members of each group of an operator that were found so far, in order, by the numbers of the keys that the operator has seen; the last
/// binding of its input that was walked to; and whether it was the last of all.
#[derive(Drop)]
pub struct Gathered {
    groups: Vec<Vec<Rc<Position>>>,
    last: Option<Rc<Position>>,
    ended: bool,
}

impl Model for Gathered {
    ghost use Rattle.std.specs.Prelude.{map};
    ghost use Rattle.std.specs.Coded.{codes};
    ghost use Rattle.lazy_binding.specs.contracts.position.Position as e;
    ghost use Rattle.lazy_binding.specs.Gathered.{Gathered as GatheredGroups, or_start};

    ghost Value = { GatheredGroups };

    ghost coded = { Prim.hlevel (codes, e.the_row.coded) };

    ghost view = { λ g. record { groups = map (λ m. m.items) g.groups.items; last = or_start g.last; ended = g.ended } };
}

/// Puts one more member into the group of a number.
fn join_group(
    groups: &mut Vec<Vec<Rc<Position>>>,
    number: usize,
    member: Rc<Position>,
) -> Result<(), WalkFault>
    requires { number < length groups.old.items }
    ensures ok { OnOk result (IsJoined (map (λ g. g.items) groups.old.items) (map (λ g. g.items) groups.new.items) number member) }
    ensures memory { IfErr result (λ e. e ≡ OutOfMemory) }
    ensures err { OnErr result (map (λ g. g.items) groups.new.items ≡ map (λ g. g.items) groups.old.items) }
{
    let members = &mut groups[number];
    match members.push(member) {
        Ok(()) => Ok(()),
        Err(_) => Err(WalkFault::OutOfMemory),
    }
}

/// Begins a group, of a key that was not seen, with its first member. Where memory is wanting, groups and keys are as they were.
fn begin_group(
    alloc: Global,
    groups: &mut Vec<Vec<Rc<Position>>>,
    seen: &mut SeenKeys,
    key: KeyTuple,
    member: Rc<Position>,
) -> Result<(), WalkFault>
    requires { was_seen key.items seen.old ≡ false }
    ensures ok { OnOk result (IsBegun (map (λ g. g.items) groups.old.items) (map (λ g. g.items) groups.new.items) member) }
    ensures pushed { OnOk result (seen.new ≡ seen.old ++ key.items ∷ []) }
    ensures memory { IfErr result (λ e. e ≡ OutOfMemory) }
    ensures err { OnErr result (map (λ g. g.items) groups.new.items ≡ map (λ g. g.items) groups.old.items) }
    ensures kept { OnErr result (seen.new ≡ seen.old) }
{
    groups.reserve(1)?;
    let mut members = Vec::new(alloc);
    members.push(member)?;
    let _ = seen.push(key)?;
    groups.push(members)?;
    Ok(())
}

impl Gathered {
    /// The groups of an operator whose input was not walked yet. It takes no memory.
    pub fn new(alloc: Global) -> Gathered
        ensures { result ≡ no_groups }
    {
        Gathered {
            groups: Vec::new(alloc),
            last: None,
            ended: false,
        }
    }

    /// How many groups have a member that was found.
    pub fn len(&self) -> usize
        ensures { result ≡ length self.now.groups }
    {
        self.groups.len()
    }

    /// The member at a place of a group, both counted from 0; `None` exactly where none was found there yet.
    pub fn member(&self, group: usize, place: usize) -> Option<&Rc<Position>>
        ensures { option_copied result ≡ slice_get (slice_index_or self.now.groups group []) place }
    {
        match self.groups.get(group) {
            None => None,
            Some(members) => members.get(place),
        }
    }

    /// The member at the place after one of a group, both counted from 0; `None` exactly where none was found there yet.
    pub fn after(&self, group: usize, place: usize) -> Option<&Rc<Position>>
        ensures { option_copied result ≡ slice_get (slice_index_or self.now.groups group []) (suc place) }
    {
        match self.groups.get(group) {
            None => None,
            Some(members) => {
                if place >= members.len() {
                    return None;
                }
                members.get(place + 1)
            }
        }
    }

    /// The last binding of the input that was walked to, or the position before all events. It fails where memory runs out.
    pub fn last(&self, alloc: Global) -> Result<Rc<Position>, WalkFault>
        ensures ok { IfOk result (λ r. r.value ≡ self.now.last) }
        ensures err { IfErr result (λ e. e ≡ OutOfMemory) }
    {
        match &self.last {
            Some(last) => share(last),
            None => put(alloc, Position::Start),
        }
    }

    /// Whether all bindings of the input were walked to.
    pub fn ended(&self) -> bool
        ensures { result ≡ self.now.ended }
    {
        self.ended
    }

    /// Notes that all bindings of the input were walked to.
    pub fn end(&mut self)
        ensures { self.new ≡ record { groups = self.old.groups; last = self.old.last; ended = true } }
    {
        self.ended = true;
    }

    /// Puts the next binding of the input, which has this key, into the group of the key, or makes it the first of a new one. Where memory is
    /// wanting, all is as it was.
    pub fn push(
        &mut self,
        alloc: Global,
        seen: &mut SeenKeys,
        key: KeyTuple,
        found: Rc<Position>,
    ) -> Result<(), WalkFault>
        requires { length self.old.groups ≡ length seen.old }
        ensures ok { OnOk result (IsGatheredBy self.old self.new seen.old seen.new key.items found.value) }
        ensures memory { IfErr result (λ e. e ≡ OutOfMemory) }
        ensures err { OnErr result (self.new ≡ self.old) }
        ensures kept { OnErr result (seen.new ≡ seen.old) }
    {
        let member = share(&found)?;
        let Some(number) = seen.number_of(&key) else {
            begin_group(alloc, &mut self.groups, seen, key, member)?;
            self.last = Some(found);
            return Ok(());
        };
        join_group(&mut self.groups, number, member)?;
        self.last = Some(found);
        Ok(())
    }
}
