// A buffer: the nodes of one source's document that were handed out, and what is known of the others.
ghost use Rattle.std.specs.Prelude.{◌≡◌, ℕ, ◌+◌, ◌<◌, ◌≤◌, true, false, IfOk, IfSome, is_some, IsTrue, ◌↔◌, []};
ghost use Rattle.tree_buffer.specs.Entries.{AreLinked, HasBareTop};

use crate::entry::Entry;
use crate::spot::Spot;
use lxp_core::{OpenTree, Sources, WalkFault};
use mix_tree::{Label, Place};
use std::alloc::{AllocError, Global};

/// The document of one source, as far as it was asked for. It hands out spots, which stand for nodes, and asks its
/// source for more only where a step needs it. The document node stands above the document's root. It hands out at most 4,294,967,295 nodes,
/// the document node among them; a step to one more fails as where memory runs out.
#[derive(Drop)]
pub struct Buffer {
    pub(crate) number: u32,
    pub(crate) entries: Vec<Entry>,
    ghost linked: { AreLinked entries.items },
    ghost bare: { HasBareTop entries.items },
}

impl Buffer {
    ghost use Rattle.lxp_core.specs.Causes.{HasCause};
    ghost use Rattle.mix_tree.specs.Forest.{first_kids, after_first};
    ghost use Rattle.mix_tree.specs.Place.{trees_at, has_place, child_place};
    ghost use Rattle.lxp_core.specs.Open.{begins_with_hole};
    ghost use Rattle.tree_buffer.specs.declared.buffer.Buffer.{Buffer};
    ghost use Rattle.tree_buffer.specs.declared.spot.Spot.{Spot};
    ghost use Rattle.tree_buffer.specs.Document.{has_next};
    ghost use Rattle.tree_buffer.specs.Buffer.{IsSpot, IsSourceOf, number_of, place_of, label_of, rest_of, below, after, from_spot, IfTold, trees_from, IsChildSpot, IsNextSpot, HasAllChildren, HasAllSiblings, ChangesOnly, IsSourcesOf, Ran};

    /// A buffer of one source, of which nothing was asked yet. No fill is asked.
    pub fn open<S: Sources>(alloc: Global, s: &S, number: u32) -> Result<Buffer, AllocError>
        requires { number < (S.view s.now).count }
        ensures number { IfOk result (λ b. number_of b ≡ number) }
        ensures sources { IfOk result (λ b. IsSourcesOf (S.view s.now) b) }
    {
        let root = s.get_root(number);
        let mut rest = Vec::new(alloc);
        rest.push(OpenTree::Hole(root))?;
        let label = Label::of_text(alloc, b"")?;
        let mut entries = Vec::new(alloc);
        entries.push(Entry {
            label,
            parent: 0,
            index: 0,
            count: 0,
            first: 0,
            next: 0,
            rest,
        })?;
        Ok(Buffer { number, entries })
    }

    /// The number of the buffer's source.
    pub fn number(&self) -> u32
        ensures { result ≡ number_of self.now }
    {
        self.number
    }

    /// The spot of the document node, whose label is empty.
    pub fn top(&self) -> Spot
        ensures spot { IsSpot self.now result }
        ensures place { place_of self.now result ≡ [] }
        ensures label { label_of self.now result ≡ [] }
    {
        Spot { number: 0 }
    }

    /// The label of the node that a spot stands for.
    pub fn label(&self, p: &Spot) -> &Label
        requires { IsSpot self.now p.now }
        ensures { result.now ≡ label_of self.now p.now }
    {
        &self.entries[p.number as usize].label
    }

    /// The place that a spot stands for, counted from the document node.
    pub fn place(&self, alloc: Global, p: &Spot) -> Result<Place, AllocError>
        requires { IsSpot self.now p.now }
        ensures { IfOk result (λ place. place ≡ place_of self.now p.now) }
    {
        let mut steps = Vec::new(alloc);
        let mut at = p.number as usize;
        while at != 0 {
            let entry = &self.entries[at];
            steps.push(entry.index as u64)?;
            at = entry.parent as usize;
        }
        steps.reverse();
        Ok(Place::new(steps))
    }

    /// Whether two spots of one buffer stand for the same node.
    pub fn same_spot(a: &Spot, b: &Spot) -> bool
        ensures { (buffer : Buffer) → IsSpot buffer a.now → IsSpot buffer b.now
            → (IsTrue result ↔ (place_of buffer a.now ≡ place_of buffer b.now)) }
    {
        a.number == b.number
    }

    /// The first child; `None` where the node has none. A fill is asked only while no child is known and the
    /// list of children begins with a hole. `Failed`: the source failed in such a fill, and the fault names it.
    pub fn down<S: Sources>(
        &mut self,
        alloc: Global,
        s: &mut S,
        p: &Spot,
    ) -> Result<Option<Spot>, WalkFault>
        requires spot { IsSpot self.old p.now }
        requires sources { IsSourcesOf (S.view s.old) self.old }
        ensures ran { Ran S.view S.came_from s.old self.old s.new self.new }
        ensures child { IfOk result (λ r. IfSome r (IsChildSpot self.new p.now 0)) }
        ensures exact { IfOk result (λ r. IfTold (S.view s.old) self.old (λ d. is_some r ≡ has_place d (child_place (place_of self.old p.now)))) }
        ensures trees { IfOk result (λ r. IfTold (S.view s.old) self.old
            (λ d. trees_from d self.new r ≡ first_kids (trees_at d (place_of self.old p.now)))) }
        ensures smaller { IfOk result (λ r. IfSome r (λ c. from_spot (S.view s.new) self.new c ≤ below (S.view s.old) self.old p.now)) }
        // Fills.
        ensures lazy { (S.view s.old).forward (number_of self.old) ≡ true → (S.view s.new).fills ≤ (S.view s.old).fills + 1 }
        ensures known { (c : Spot) → IsChildSpot self.old p.now 0 c → s.new ≡ s.old }
        ensures whole { begins_with_hole (rest_of self.old p.now) ≡ false → s.new ≡ s.old }
        ensures only { ChangesOnly (λ q. place_of self.old q ≡ place_of self.old p.now) self.old self.new }
        ensures none { IfOk result (λ r. is_some r ≡ false → HasAllChildren self.new p.now) }
        ensures again { HasAllChildren self.old p.now → s.new ≡ s.old }
        // The cause.
        ensures cause { HasCause (IsSourceOf self.old) (S.view s.old) (S.view s.new) result }
    {
        let entry = &self.entries[p.number as usize];
        if entry.count > 0 {
            return Ok(Some(Spot {
                number: entry.first,
            }));
        }
        let number = p.number as usize;
        self.settle_at(alloc, s, number)?;
        Ok(self.hand_out(number, number)?)
    }

    /// The next sibling; `None` where the node has none, as the document node. A fill is asked only while that sibling
    /// isn't known and a hole stands where it would be. `Failed`: the source failed in such a fill, and the fault names it.
    pub fn right<S: Sources>(
        &mut self,
        alloc: Global,
        s: &mut S,
        p: &Spot,
    ) -> Result<Option<Spot>, WalkFault>
        requires spot { IsSpot self.old p.now }
        requires sources { IsSourcesOf (S.view s.old) self.old }
        ensures ran { Ran S.view S.came_from s.old self.old s.new self.new }
        ensures next { IfOk result (λ r. IfSome r (IsNextSpot self.new p.now)) }
        ensures exact { IfOk result (λ r. IfTold (S.view s.old) self.old (λ d. is_some r ≡ has_next d (place_of self.old p.now))) }
        ensures trees { IfOk result (λ r. IfTold (S.view s.old) self.old
            (λ d. trees_from d self.new r ≡ after_first (trees_at d (place_of self.old p.now)))) }
        ensures smaller { IfOk result (λ r. IfSome r (λ q. from_spot (S.view s.new) self.new q ≤ after (S.view s.old) self.old p.now)) }
        // Fills.
        ensures lazy { (S.view s.old).forward (number_of self.old) ≡ true → (S.view s.new).fills ≤ (S.view s.old).fills + 1 }
        ensures known { (q : Spot) → IsNextSpot self.old p.now q → s.new ≡ s.old }
        ensures whole { (q : Spot) (k : ℕ) → IsSpot self.old q → IsChildSpot self.old q k p.now
            → begins_with_hole (rest_of self.old q) ≡ false → s.new ≡ s.old }
        ensures top { place_of self.old p.now ≡ [] → s.new ≡ s.old }
        ensures only { ChangesOnly (λ q. (k : ℕ) × IsChildSpot self.old q k p.now) self.old self.new }
        ensures none { IfOk result (λ r. is_some r ≡ false → HasAllSiblings self.new p.now) }
        ensures again { HasAllSiblings self.old p.now → s.new ≡ s.old }
        // The cause.
        ensures cause { HasCause (IsSourceOf self.old) (S.view s.old) (S.view s.new) result }
    {
        if p.number == 0 {
            return Ok(None);
        }
        let entry = &self.entries[p.number as usize];
        let parent = entry.parent as usize;
        if (entry.index as usize) + 1 < self.entries[parent].count as usize {
            return Ok(Some(Spot { number: entry.next }));
        }
        self.settle_at(alloc, s, parent)?;
        Ok(self.hand_out(parent, p.number as usize)?)
    }
}
