// What the holes of a document stand for.
ghost use Rattle.std.specs.Prelude.{◌≡◌};
ghost use Rattle.table_wrap.specs.Parts.{hole_of, part_of};

use lxp_core::HoleId;

/// What a hole of a table's document stands for.
#[derive(Clone, Copy)]
pub enum Part {
    /// The whole document: the source's name.
    Name,
    /// The rows above a key, or all of them.
    Rows(Option<i64>),
}

impl Part {
    /// The hole that stands for this part.
    pub fn hole(self) -> HoleId
        ensures { result ≡ hole_of self }
    {
        match self {
            Part::Name => HoleId { words: [0, 0, 0] },
            Part::Rows(None) => HoleId { words: [1, 0, 0] },
            Part::Rows(Some(key)) => HoleId {
                words: [2, key.cast_unsigned(), 0],
            },
        }
    }

    /// The part that a hole stands for; `None` where it is the hole of no part.
    pub fn of_hole(hole: HoleId) -> Option<Part>
        ensures { result ≡ part_of hole }
    {
        let [kind, key, last] = hole.words;
        if last != 0 {
            return None;
        }
        match kind {
            0 if key == 0 => Some(Part::Name),
            1 if key == 0 => Some(Part::Rows(None)),
            2 => Some(Part::Rows(Some(key.cast_signed()))),
            _ => None,
        }
    }
}
