// The document of a plan, walked by a mediator.
use crate::walker::{Found, Walker, found_in};
use lazy_value::{Mediator, NodeId};
use lxp_core::Sources;
use mix_script::Way;
use mix_tree::Label;
use node_text::NodeData;
use std::alloc::{AllocError, Global};

impl Walker for Mediator {
    ghost use Rattle.std.specs.Prelude.{List, ℕ};
    ghost use Rattle.mix_session.specs.Walks.{plan_meaning, PlanKept};
    ghost use Rattle.mix_session.specs.Kept.{plan_kept_same, plan_kept_twice};

    type Node = NodeId;

    ghost Told = { List ℕ };

    ghost means = { plan_meaning };

    ghost keeps = { PlanKept };

    fn seek_root<S: Sources>(&mut self, _: Global, _: &mut S) -> Result<Found<NodeId>, AllocError> {
        Ok(Found::Node(self.root()))
    }

    fn seek<S: Sources>(
        &mut self,
        alloc: Global,
        s: &mut S,
        way: Way,
        n: &NodeId,
    ) -> Result<Found<NodeId>, AllocError> {
        match way {
            Way::Down => found_in(self.down(alloc, s, n)),
            Way::Right => found_in(self.right(alloc, s, n)),
        }
    }

    fn read_label(&self, n: &NodeId) -> &Label {
        self.fetch(n)
    }

    fn tell(&self, alloc: Global, n: &NodeId) -> Result<NodeData, AllocError> {
        self.node_data(alloc, n)
    }

    fn seek_named<S: Sources>(
        &mut self,
        alloc: Global,
        s: &mut S,
        node: &NodeData,
    ) -> Result<Found<NodeId>, AllocError> {
        found_in(self.at(alloc, s, node))
    }

    ghost twice = { plan_kept_twice };

    ghost same = { plan_kept_same };
}
