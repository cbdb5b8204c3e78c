// Documents in memory as sources, for trying out every cutting and every fault.
ghost use Rattle.std.specs.Prelude.{◌≡◌, ◌<◌, ◌^◌, length, map, true, IfOk};
ghost use Rattle.std.specs.List.{list_all};
ghost use Rattle.mix_tree.specs.Forest.{alone};
ghost use Rattle.lxp_memory.specs.Documents.{AreAllSmall, AreAllSmall-prop, root_of};
ghost use Rattle.lxp_memory.specs.Small.{fits_wire};

use crate::choice::Choice;
use crate::circle::Circle;
use crate::document::Document;
use lxp_core::{HoleId, OpenTree, SourceFault, Sources, Weighed};
use mix_tree::Tree;
use std::alloc::{AllocError, Global};

/// Documents in memory. They come in pieces that bytes choose, and fail at the fills that a list names.
///
/// A hole stands for a range of the children of a node; the root's is a range of one, below the document node. Each fill
/// that is answered takes the next byte of the choices, in a circle. An empty range gives an empty list. Else there come
/// a hole for the first children, where bit 0 is set and the sources are not forward, for as many as bits 6 and 7 say
/// but never for all; then one child and as many more as bits 3 to 5 say, or as there are; then a hole for those that
/// are left, where some are or bit 1 is set. With bit 2 a child is a whole subtree. Without it a child has one hole below
/// it, where it has children or bit 1 is set.
#[derive(Drop)]
pub struct MemSources {
    docs: Vec<Document>,
    circle: Circle,
    failing: Vec<u64>,
    forward: bool,
    fills: u64,
    // How often each document failed.
    faults: Vec<u64>,
    ghost few: { length docs.items < 2 ^ 32 },
    ghost counted: { length faults.items ≡ length docs.items },
    ghost small: { AreAllSmall docs.items } by { AreAllSmall-prop docs.items },
}

// The trees as documents, in the same order.
fn documents_of(alloc: Global, trees: Vec<Tree>) -> Result<Vec<Document>, AllocError>
    ensures roots { IfOk result (λ docs. map root_of docs.items ≡ map alone trees.items) }
    ensures small { IfOk result (λ docs. list_all fits_wire trees.items ≡ true → AreAllSmall docs.items) }
{
    let mut docs = Vec::new(alloc);
    for tree in trees {
        docs.push(Document::new(alloc, tree)?)?;
    }
    Ok(docs)
}

impl MemSources {
    ghost use Rattle.std.specs.Prelude.{◌≡◌, ◌≢◌, ◌+◌, ◌<◌, ◌≤◌, ◌^◌, length, slice_index, IfOk, ℕ, true};
    ghost use Rattle.mix_base.specs.Counts.{HasRisen};
    ghost use Rattle.lxp_core.specs.View.{document};
    ghost use Rattle.lxp_memory.specs.Documents.{document_at};
    ghost use Rattle.lxp_memory.specs.Memory.{memory_view, CameFrom, fails_next, failing_of, choices_of, turn_of};

    /// Sources of these documents, in order, of which no fill was asked. Those fills fail that `failing` names, counted
    /// from 1 over the fills of known holes. Where `forward`, no list begins with a hole. There are fewer than 2^32 documents; each has at
    /// most 200 levels, and each label and each list in it is shorter than 2^32, as `fit_wire` tests.
    pub fn new(
        alloc: Global,
        docs: Vec<Tree>,
        choices: Vec<u8>,
        failing: Vec<u64>,
        forward: bool,
    ) -> Result<MemSources, AllocError>
        requires few { length docs.items < 2 ^ 32 }
        requires small { list_all fits_wire docs.items ≡ true }
        ensures count { IfOk result (λ m. (memory_view m).count ≡ length docs.items) }
        ensures documents { IfOk result (λ m. (s : ℕ) → document (memory_view m) s ≡ document_at docs.items s) }
        ensures told { IfOk result (λ m. (s : ℕ) → (memory_view m).told s ≡ true) }
        ensures forward { IfOk result (λ m. (s : ℕ) → (memory_view m).forward s ≡ forward) }
        ensures fills { IfOk result (λ m. (memory_view m).fills ≡ 0) }
        ensures faults { IfOk result (λ m. (s : ℕ) → (memory_view m).faults s ≡ 0) }
        ensures failing { IfOk result (λ m. failing_of m ≡ failing.items) }
        ensures choices { IfOk result (λ m. choices_of m ≡ choices.items) }
        ensures turn { IfOk result (λ m. turn_of m ≡ 0) }
    {
        let count = docs.len();
        Ok(MemSources {
            docs: documents_of(alloc, docs)?,
            circle: Circle::new(choices),
            failing,
            forward,
            fills: 0,
            faults: vec![in alloc; 0; count]?,
        })
    }

    /// How many fills of known holes were answered or failed.
    pub fn fills(&self) -> u64
        ensures { result ≡ (memory_view self.now).fills }
    {
        self.fills
    }

    // Whether the next fill is to fail.
    fn fails_next(&self) -> bool
        ensures { result ≡ fails_next self.now }
    {
        self.fills < u64::MAX && self.failing.contains(&(self.fills + 1))
    }

    // Counts a fill of a document that fails.
    fn fail(&mut self, s: usize)
        requires within { s < length self.old.docs.items }
        requires next { fails_next self.old ≡ true }
        ensures came { CameFrom self.old self.new }
        ensures fills { self.new.fills ≡ self.old.fills + 1 }
        ensures faults { HasRisen (slice_index self.old.faults.items s) (slice_index self.new.faults.items s) }
        ensures others { (r : ℕ) → r ≢ s → slice_index self.new.faults.items r ≡ slice_index self.old.faults.items r }
        ensures turn { turn_of self.new ≡ turn_of self.old }
    {
        self.fills += 1;
        self.faults[s] = self.faults[s].saturating_add(1);
    }
}

impl Sources for MemSources {
    ghost use Rattle.std.specs.Prelude.{◌≡◌, ◌≢◌, ℕ, true, length, IfOk, OnOk, OnErr, IsErrOf};
    ghost use Rattle.lxp_core.specs.Fill.{Answers, IsCounted, IsRefused, source_of};
    ghost use Rattle.lxp_core.specs.Plain.{plain};
    ghost use Rattle.lxp_memory.specs.Choice.{turn_after};
    ghost use Rattle.lxp_memory.specs.Memory.{memory_view, CameFrom, fails_next, choices_of, turn_of, next_list};
    ghost use Rattle.lxp_memory.specs.MemoryLaws.{came_same, came_after, came_keeps, root_is_known};

    ghost view = { memory_view };

    ghost came_from = { CameFrom };

    fn count(&self) -> u32 {
        self.docs.len() as u32
    }

    fn get_root(&self, s: u32) -> HoleId {
        self.docs[s as usize].root_hole()
    }

    fn fill(&mut self, alloc: Global, s: u32, hole: HoleId) -> Result<Vec<OpenTree>, SourceFault>
        requires { s < (memory_view self.old).count }
        ensures came { CameFrom self.old self.new }
        ensures answers { let before = source_of (memory_view self.old) s in let after = source_of (memory_view self.new) s in
            IfOk result (λ list. Answers before after hole (plain list.items)) }
        ensures refused { IsRefused _ (source_of (memory_view self.old) s) (source_of (memory_view self.new) s) hole result }
        ensures counted { IsCounted _ (memory_view self.old).fills (memory_view self.new).fills result }
        // Which list is given, and by which byte of the circle it is cut.
        ensures list { IfOk result (λ list. plain list.items ≡ next_list self.old s hole) }
        ensures turn { OnOk result (turn_of self.new ≡ turn_after (length (choices_of self.old)) (turn_of self.old)) }
        ensures same_turn { OnErr result (turn_of self.new ≡ turn_of self.old) }
        // Which fills fail, and that no other source counts a fault.
        ensures others { (r : ℕ) → r ≢ s → (memory_view self.new).faults r ≡ (memory_view self.old).faults r }
        ensures named { IsErrOf result SourceFault.Failed → fails_next self.old ≡ true }
        ensures fails { (memory_view self.old).knows s hole ≡ true → fails_next self.old ≡ true
            → IsErrOf result SourceFault.Failed }
    {
        let Some(span) = self.docs[s as usize].span(hole) else {
            return Err(SourceFault::UnknownHole);
        };
        if self.fails_next() {
            self.fail(s as usize);
            return Err(SourceFault::Failed);
        }
        let choice = Choice::new(self.circle.byte(), self.forward);
        let list = self.docs[s as usize].cut(alloc, choice, span)?;
        self.fills = self.fills.saturating_add(1);
        self.circle.step();
        Ok(list)
    }

    ghost same = { came_same };

    ghost after = { came_after };

    ghost keeps = { came_keeps };

    ghost root_known = { root_is_known };
}

impl Weighed for MemSources {
    ghost use Rattle.lxp_memory.specs.MemoryLaws.{all_small};

    fn weight(&self, s: u32, hole: HoleId) -> Option<u128> {
        let doc = &self.docs[s as usize];
        match doc.span(hole) {
            None => None,
            Some(span) => Some(doc.weight(span)),
        }
    }

    ghost all_small = { all_small };
}
