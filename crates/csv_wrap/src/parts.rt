// What the holes of a document stand for.
ghost use Rattle.std.specs.Prelude.{◌≡◌};
ghost use Rattle.csv_wrap.specs.Parts.{hole_of, part_of};

use lxp_core::HoleId;

/// What a hole of a CSV document stands for.
#[derive(Clone, Copy)]
pub enum Part {
    /// The whole document: the source's name.
    Name,
    /// The rows from this index on.
    RowsFrom(usize),
}

impl Part {
    /// The hole that stands for this part.
    pub fn hole(self) -> HoleId
        ensures { result ≡ hole_of self }
    {
        match self {
            Part::Name => HoleId { words: [0, 0, 0] },
            Part::RowsFrom(first) => HoleId {
                words: [1, first as u64, 0],
            },
        }
    }

    /// The part that a hole stands for; `None` where it is the hole of no part.
    pub fn of_hole(hole: HoleId) -> Option<Part>
        ensures { result ≡ part_of hole }
    {
        let [kind, first, last] = hole.words;
        if kind == 0 && first == 0 && last == 0 {
            return Some(Part::Name);
        }
        if kind == 1 && last == 0 {
            return Some(Part::RowsFrom(first as usize));
        }
        None
    }
}
