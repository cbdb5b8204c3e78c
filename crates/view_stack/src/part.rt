// What the holes of a view stand for.
ghost use Rattle.std.specs.Prelude.{◌≡◌};
ghost use Rattle.view_stack.specs.Parts.{hole_of, part_of};

use lxp_core::HoleId;

/// What a hole of a view stands for. Nodes are numbered as they were served.
#[derive(Clone, Copy)]
pub enum Part {
    /// The whole document.
    Whole,
    /// What is below a node.
    Below(usize),
    /// What comes after a node.
    After(usize),
}

impl Part {
    /// The hole that stands for this part.
    pub fn hole(self) -> HoleId
        ensures { result ≡ hole_of self }
    {
        match self {
            Part::Whole => HoleId { words: [0, 0, 0] },
            Part::Below(node) => HoleId {
                words: [1, node as u64, 0],
            },
            Part::After(node) => HoleId {
                words: [2, node as u64, 0],
            },
        }
    }

    /// The part whose hole this is; `None` where it is the hole of no part.
    pub fn of_hole(hole: HoleId) -> Option<Part>
        ensures { result ≡ part_of hole }
    {
        let [kind, node, last] = hole.words;
        if last != 0 {
            return None;
        }
        match kind {
            0 if node == 0 => Some(Part::Whole),
            1 => Some(Part::Below(node as usize)),
            2 => Some(Part::After(node as usize)),
            _ => None,
        }
    }
}
