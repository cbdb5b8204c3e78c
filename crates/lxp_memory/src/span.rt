// What the holes of a document in memory stand for.
ghost use Rattle.std.specs.Prelude.{◌≡◌};
ghost use Rattle.lxp_memory.specs.Span.{span_hole, hole_span};

use lxp_core::HoleId;

/// The children of a node from one index to another.
#[derive(Clone, Copy)]
pub struct Span {
    pub node: usize,
    pub from: usize,
    pub to: usize,
}

impl Span {
    /// The hole that stands for these children.
    pub fn hole(self) -> HoleId
        ensures { result ≡ span_hole self }
    {
        HoleId {
            words: [self.node as u64, self.from as u64, self.to as u64],
        }
    }

    /// The children that a hole stands for, where a document has them.
    pub fn of_hole(hole: HoleId) -> Span
        ensures { result ≡ hole_span hole }
    {
        let [node, from, to] = hole.words;
        Span {
            node: node as usize,
            from: from as usize,
            to: to as usize,
        }
    }
}
