// Texts of identifiers that are followed, and the labels that their marks show.
use crate::walk::Walk;
use lazy_follow::{Mark, Shown, followed};
use lazy_plan::WalkFault;
use lxp_core::Sources;
use mix_tree::Label;
use node_text::NodeData;
use plan_forms::{element_label, piece, text};
use std::alloc::Global;

impl Walk {
    ghost use Rattle.std.specs.Prelude.{◌≡◌, IfOk, IsTrue};
    ghost use Rattle.lxp_core.specs.View.{View};
    ghost use Rattle.lazy_follow.specs.Marks.{IsMark, shown_label, text_reach};
    ghost use Rattle.lazy_follow.specs.Trails.{GivesMark};
    ghost use Rattle.lazy_plan.specs.Bench.{ops_of, told, AsksAtMost};
    ghost use Rattle.lazy_steps.specs.Steps.{HasCause};
    ghost use Rattle.lazy_walk.specs.Walks.{state_of, IsWalkOf, HasWalked};

    /// The mark of an identifier's text, followed over the sources without a step of the plan. Over sources that tell their documents `None` comes exactly
    /// where the text can't be followed. It asks at most as many fills as the text's places reach. `Failed`: this source failed. Every earlier identifier
    /// stays, whatever is answered.
    pub fn follow<S: Sources>(
        &mut self,
        alloc: Global,
        s: &mut S,
        text: NodeData,
    ) -> Result<Option<Mark>, WalkFault>
        requires { IsWalkOf (S.view s.old) self.old }
        ensures walked { HasWalked S.view S.came_from s.old self.old s.new self.new }
        ensures lazy { AsksAtMost (state_of (S.view s.old) self.old) (state_of (S.view s.new) self.new) (text_reach text) }
        ensures cause { HasCause (ops_of (state_of (S.view s.old) self.old)) (S.view s.old) (S.view s.new) result }
        ensures answer { IfOk result (GivesMark (state_of (S.view s.old) self.old) (state_of (S.view s.new) self.new) text) }
    {
        followed(alloc, &mut self.bench, s, text)
    }

    /// The label that a mark shows, over sources that tell their documents. It was read when the text was followed: no fill is asked and no memory taken.
    pub fn marked_label(&self, mark: &Mark) -> &Label
        requires { (view : View) × IsWalkOf view self.now × IsMark (state_of view self.now) mark.now }
        ensures { (view : View) → IsWalkOf view self.now → let st = state_of view self.now in
            IsMark st mark.now → IsTrue (told st) → result.now ≡ shown_label st mark.now.shown }
    {
        match &mark.shown {
            Shown::Whole(node) => self.bench.label(node.source, &node.spot),
            Shown::Leaf(node) => self.bench.label(node.source, &node.spot),
            Shown::Element(op) => element_label(self.bench.plan(), *op),
            Shown::Text(op, index) => text(piece(self.bench.plan(), *op, *index)),
        }
    }
}
