// What is read off a position of an operator: its spots, their labels, and whether comparisons hold there.
ghost use Rattle.std.specs.Prelude.{◌≡◌, ◌<◌, true, IsTrue, IfOk, Some, length};
ghost use Rattle.std.specs.List.{AllByRecursion, fold};
ghost use Rattle.std.specs.Hash.{HashWrites};
ghost use Rattle.std.specs.Hash.FoldHasher as folding;
ghost use Rattle.mix_tree.specs.Comparisons.{compares_nodes, passes};
ghost use Rattle.mix_tree.specs.Nodes.{label_at};
ghost use Rattle.plan_core.specs.TolledRows.{row_node};
ghost use Rattle.plan_core.specs.Valid.{kinds, a_node, IsTest};
ghost use Rattle.plan_core.specs.Events.{passes_all};
ghost use Rattle.lazy_binding.specs.World.{World, docs_of};
ghost use Rattle.lazy_binding.specs.Cursors.{IsOf, has_row};
ghost use Rattle.lazy_binding.specs.Reading.{Found, HasStand, InEachWorld, Tells};
ghost use Rattle.lazy_binding.specs.Parts.{operators, IsFixed};
ghost use Rattle.lazy_binding.specs.Spots as spots;
ghost use Rattle.lazy_binding.specs.Spots.{spot_in, spot_text};

use crate::parts::{Growing, Walk};
use crate::position::Position;
use itoa::Buffer;
use mix_tree::{Label, Operand, Test, TestOp, Var};
use std::alloc::{AllocError, Global};
use std::default::Default;
use std::hash::{FoldHasher, Hash, Hasher};
use tree_buffer::{Spot, spots_are_one};

/// The text of what a hasher was fed: its hash, cut to 32 bits, in decimal digits. What differs may have the same.
#[tactic(auto, unfolding(crate::specs::Spots::hash_text))]
pub(crate) fn hash_text(alloc: Global, state: &FoldHasher) -> Result<Label, AllocError>
    ensures { IfOk result (λ text. (writes : HashWrites) → state.now ≡ fold folding.write folding.initial writes → text ≡ spots.hash_text writes) }
{
    let number = state.finish() % 0x1_0000_0000;
    let mut digits = Buffer::new();
    Label::of_text(alloc, digits.format(number).as_bytes())
}

/// The text of a spot. Two nodes may have the same.
#[tactic(auto, unfolding(crate::specs::Spots::spot_text))]
fn text_of(alloc: Global, source: u32, spot: Spot) -> Result<Label, AllocError>
    ensures { IfOk result (λ text. text ≡ spot_text (Some (source, spot))) }
{
    let mut state = FoldHasher::default();
    spot.hash(&mut state);
    hash_text(alloc, &state)
}

impl Walk<'_> {
    /// The node of a variable in a position's binding: its source and its spot.
    pub fn node_of(&self, at: &Position, v: Var) -> (u32, Spot)
        requires fixed { IsFixed self.now.fixed.now }
        requires op { self.now.op < length (operators self.now.fixed.now) }
        requires cursor { (w : World) × IsOf w (operators self.now.fixed.now) self.now.op at.now }
        requires row { IsTrue (has_row at.now) }
        requires node { kinds (operators self.now.fixed.now) self.now.op v ≡ Some a_node }
        ensures { InEachWorld self.now at.now (λ w row. Found w (operators self.now.fixed.now) self.now.op at.now v result.0 result.1) }
    {
        match self.fixed.spot_of(self.op, at, v) {
            Some(found) => found,
            None => unreachable!(),
        }
    }

    /// The label of a variable's node in a position's binding.
    pub fn label_of<'a>(&self, growing: &'a Growing, at: &Position, v: Var) -> &'a Label
        requires fixed { IsFixed self.now.fixed.now }
        requires op { self.now.op < length (operators self.now.fixed.now) }
        requires cursor { HasStand growing.now self.now at.now }
        requires row { IsTrue (has_row at.now) }
        requires node { kinds (operators self.now.fixed.now) self.now.op v ≡ Some a_node }
        ensures { Tells growing.now self.now at.now (λ w docs row. result.now ≡ label_at docs (row_node row v)) }
    {
        let (source, spot) = self.node_of(at, v);
        growing.buffers[source as usize].label(&spot)
    }

    /// The text of the spot of a variable's node in a position's binding, by which its node is looked up. It lies in the label itself.
    #[tactic(auto, unfolding(crate::specs::Spots::spot_text))]
    pub fn text_of(&self, alloc: Global, at: &Position, v: Var) -> Result<Label, AllocError>
        requires fixed { IsFixed self.now.fixed.now }
        requires op { self.now.op < length (operators self.now.fixed.now) }
        ensures { IfOk result (λ text. text ≡ spot_text (spot_in (operators self.now.fixed.now) self.now.op at.now v)) }
    {
        match self.fixed.spot_of(self.op, at, v) {
            Some((source, spot)) => text_of(alloc, source, spot),
            None => Label::of_text(alloc, &[]),
        }
    }

    /// Whether the two variables of a comparison of nodes have the same node in a position's binding: the same spot of one source.
    fn has_same_node(&self, at: &Position, test: &Test) -> bool
        requires fixed { IsFixed self.now.fixed.now }
        requires op { self.now.op < length (operators self.now.fixed.now) }
        requires cursor { (w : World) × IsOf w (operators self.now.fixed.now) self.now.op at.now }
        requires row { IsTrue (has_row at.now) }
        requires test { IsTest (kinds (operators self.now.fixed.now) self.now.op) test.now }
        requires nodes { compares_nodes test.now.op ≡ true }
        ensures { InEachWorld self.now at.now (λ w row. result ≡ passes (docs_of w) test.now (row_node row)) }
    {
        let Operand::Var(right) = &test.right else {
            return false;
        };
        spots_are_one();
        let (source, spot) = self.node_of(at, test.left);
        let (other_source, other_spot) = self.node_of(at, *right);
        source == other_source && spot == other_spot
    }

    /// Whether a comparison holds in a position's binding: of nodes by their spots, else of their labels.
    pub fn passes(&self, growing: &Growing, at: &Position, test: &Test) -> bool
        requires fixed { IsFixed self.now.fixed.now }
        requires op { self.now.op < length (operators self.now.fixed.now) }
        requires cursor { HasStand growing.now self.now at.now }
        requires row { IsTrue (has_row at.now) }
        requires test { IsTest (kinds (operators self.now.fixed.now) self.now.op) test.now }
        ensures { Tells growing.now self.now at.now (λ w docs row. result ≡ passes docs test.now (row_node row)) }
    {
        match test.op {
            TestOp::Same => self.has_same_node(at, test),
            _ => {
                let left = self.label_of(growing, at, test.left);
                match &test.right {
                    Operand::Var(v) => test.op.holds(left, self.label_of(growing, at, *v)),
                    Operand::Text(label) => test.op.holds(left, label),
                }
            }
        }
    }

    /// Whether all comparisons hold in a position's binding.
    pub fn passes_each(&self, growing: &Growing, at: &Position, tests: &[Test]) -> bool
        requires fixed { IsFixed self.now.fixed.now }
        requires op { self.now.op < length (operators self.now.fixed.now) }
        requires cursor { HasStand growing.now self.now at.now }
        requires row { IsTrue (has_row at.now) }
        requires tests { AllByRecursion (IsTest (kinds (operators self.now.fixed.now) self.now.op)) tests.now }
        ensures { Tells growing.now self.now at.now (λ w docs row. result ≡ passes_all docs tests.now row) }
    {
        for test in tests {
            if !self.passes(growing, at, test) {
                return false;
            }
        }
        true
    }
}
