// The document of one source, walked by a buffer.
use crate::walker::{Found, Walker, found_in};
use lxp_core::Sources;
use mix_script::Way;
use mix_tree::{Label, Place};
use node_text::NodeData;
use std::alloc::{AllocError, Global};
use tree_buffer::{Buffer, Spot};

impl Walker for Buffer {
    ghost use Rattle.mix_session.specs.Walks.{source_meaning, SourceKept};
    ghost use Rattle.mix_session.specs.Kept.{source_kept_same, source_kept_twice};

    type Node = Spot;

    ghost Told = { Unit {0} };

    ghost means = { source_meaning };

    ghost keeps = { SourceKept };

    // The root is the first child of the document node.
    fn seek_root<S: Sources>(
        &mut self,
        alloc: Global,
        s: &mut S,
    ) -> Result<Found<Spot>, AllocError> {
        let top = self.top();
        found_in(self.down(alloc, s, &top))
    }

    fn seek<S: Sources>(
        &mut self,
        alloc: Global,
        s: &mut S,
        way: Way,
        n: &Spot,
    ) -> Result<Found<Spot>, AllocError> {
        match way {
            Way::Down => found_in(self.down(alloc, s, n)),
            Way::Right => found_in(self.right(alloc, s, n)),
        }
    }

    fn read_label(&self, n: &Spot) -> &Label {
        self.label(n)
    }

    // No texts are told of a source's own document: the one of the root stands for all.
    fn tell(&self, alloc: Global, _: &Spot) -> Result<NodeData, AllocError> {
        let levels = Vec::new(alloc);
        let inside = Place::new(Vec::new(alloc));
        Ok(NodeData { levels, inside })
    }

    // No text names a node of a source's own document.
    fn seek_named<S: Sources>(
        &mut self,
        _: Global,
        _: &mut S,
        _: &NodeData,
    ) -> Result<Found<Spot>, AllocError> {
        Ok(Found::None)
    }

    ghost twice = { source_kept_twice };

    ghost same = { source_kept_same };
}
