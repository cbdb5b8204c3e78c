// How a buffer comes to one node more.
ghost use Rattle.std.specs.Prelude.{◌≡◌, ◌+◌, ◌<◌, ◌≤◌, true, false, is_some, OnOk, IfOk, MatchOption, length, vec_len, vec_capacity};

use crate::buffer::Buffer;
use crate::entry::{Entry, MOST};
use crate::spot::Spot;
use crate::stacks::{pop_tree, settle};
use lxp_core::{Sources, WalkFault};
use std::alloc::{AllocError, Global};

impl Buffer {
    ghost use Rattle.std.proofs.Common.{get_or};
    ghost use Rattle.lxp_core.specs.Causes.{HasCause};
    ghost use Rattle.lxp_core.specs.Open.{nil, begins_with_hole};
    ghost use Rattle.lxp_core.specs.View.{View};
    ghost use Rattle.tree_buffer.specs.Nodes.{IsChild, IsLast, KeepsLists};
    ghost use Rattle.tree_buffer.specs.Buffer.{nodes_of, IsSourcesOf, IsSourceOf};
    ghost use Rattle.tree_buffer.specs.Advance.{Advances, Advanced};

    // Asks fills until no hole begins a node's list.
    pub(crate) fn settle_at<S: Sources>(
        &mut self,
        alloc: Global,
        s: &mut S,
        q: usize,
    ) -> Result<(), WalkFault>
        requires spot { q < length (nodes_of self.old).links }
        requires sources { IsSourcesOf (S.view s.old) self.old }
        ensures advanced { Advanced S.view S.came_from s.old self.old s.new self.new }
        ensures links { (nodes_of self.new).links ≡ (nodes_of self.old).links }
        ensures counts { (nodes_of self.new).counts ≡ (nodes_of self.old).counts }
        ensures others { KeepsLists q (nodes_of self.old) (nodes_of self.new) }
        ensures settled { OnOk result (begins_with_hole (get_or (nodes_of self.new).rests q nil) ≡ false) }
        ensures lazy { (S.view s.old).forward self.old.number ≡ true → (S.view s.new).fills ≤ (S.view s.old).fills + 1 }
        ensures whole { begins_with_hole (get_or (nodes_of self.old).rests q nil) ≡ false → s.new ≡ s.old }
        ensures cause { HasCause (IsSourceOf self.old) (S.view s.old) (S.view s.new) result }
    {
        let number = self.number;
        let entry = &mut self.entries[q];
        settle(alloc, s, number, &mut entry.rest)
    }

    // Hands out the next child of a node, whose list begins with no hole. `before` is the last one before it. It fails where memory runs
    // out, and where so many nodes were handed out already that no number is left.
    #[inline(always)]
    pub(crate) fn hand_out(&mut self, q: usize, before: usize) -> Result<Option<Spot>, AllocError>
        requires spot { q < length (nodes_of self.old).links }
        requires top { begins_with_hole (get_or (nodes_of self.old).rests q nil) ≡ false }
        requires before { 0 < get_or (nodes_of self.old).counts q 0 → IsLast (nodes_of self.old) q before }
        ensures sources { (v : View) → IsSourcesOf v self.old → IsSourcesOf v self.new }
        ensures advances { (v : View) → IsSourcesOf v self.old → Advances v self.old v self.new }
        ensures child { let old = nodes_of self.old in IfOk result (λ r.
            MatchOption r (get_or old.rests q nil ≡ nil) (λ c. IsChild (nodes_of self.new).links q (get_or old.counts q 0) c.number)) }
        ensures others { KeepsLists q (nodes_of self.old) (nodes_of self.new) }
        ensures none { IfOk result (λ r. is_some r ≡ false → self.new ≡ self.old) }
    {
        if self.entries[q].rest.is_empty() {
            return Ok(None);
        }
        let new = self.entries.len();
        if new >= MOST {
            return Err(AllocError);
        }
        make_room(&mut self.entries)?;
        let entry = &mut self.entries[q];
        let index = entry.count;
        let first = new_or(index, new, entry.first as usize);
        let before = new_or(index, new, before);
        let (label, rest) = pop_tree(&mut entry.rest);
        entry.count = index + 1;
        entry.first = first as u32;
        self.entries.push_reserved(Entry {
            label,
            parent: q as u32,
            index,
            count: 0,
            first: 0,
            next: 0,
            rest,
        });
        let last = &mut self.entries[before];
        last.next = new as u32;
        Ok(Some(Spot { number: new as u32 }))
    }
}

// Makes room for one entry more in a list of entries.
fn make_room(entries: &mut Vec<Entry>) -> Result<(), AllocError>
    ensures items { entries.new.items ≡ entries.old.items }
    ensures room { OnOk result (vec_len entries.new < vec_capacity entries.new) }
{
    if entries.len() < entries.capacity() {
        return Ok(());
    }
    entries.reserve(1)
}

// The new node where it is the first child, else the old one.
fn new_or(index: u32, new: usize, old: usize) -> usize
    ensures first { index ≡ 0 → result ≡ new }
    ensures later { 0 < index → result ≡ old }
{
    if index == 0 { new } else { old }
}
