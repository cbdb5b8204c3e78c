// What a wire asks of a table's document: names that are short, and the weights of its holes.
ghost use Rattle.std.specs.Prelude.{◌≡◌};
ghost use Rattle.std.specs.List.{list_all};
ghost use Rattle.table_wrap.specs.Document.{room};
ghost use Rattle.table_wrap.specs.Wire.{fits_wire, is_short};

use crate::TableDoc;
use crate::parts::Part;
use lxp_core::HoleId;
use mix_catalog::Column;
use mix_tree::Label;

// The least length of a name, and the least count of columns, that a wire doesn't bear.
const TOO_LONG: usize = 1 << 32;

// Whether a name is shorter than 2^32 bytes.
fn is_short(name: &Label) -> bool
    ensures { result ≡ is_short name.now }
{
    name.bytes().len() < TOO_LONG
}

// Whether each column has a name that is shorter than 2^32 bytes.
fn are_short(columns: &[Column]) -> bool
    ensures { result ≡ list_all (λ c. is_short c.name) columns.now }
{
    columns.iter().all(|column| is_short(&column.name))
}

/// Whether a source's name and the names of its columns are shorter than 2^32 bytes, and the columns fewer than 2^32.
pub fn fits_wire(name: &Label, columns: &[Column]) -> bool
    ensures { result ≡ fits_wire name.now columns.now }
{
    is_short(name) && columns.len() < TOO_LONG && are_short(columns)
}

// How many keys of 64 bits are above a given one; all of them where none is given.
fn room(after: Option<i64>) -> u128
    ensures { result ≡ room after }
{
    match after {
        None => 1 << 64,
        Some(key) => u128::from(i64::MAX.abs_diff(key)),
    }
}

impl TableDoc {
    ghost use Rattle.std.specs.Prelude.{◌≡◌, ◌*◌, ◌+◌, length, Some, true, false, MatchOption};
    ghost use Rattle.table_wrap.specs.Document.{knows, part_weight, row_weight, weight};

    // The most nodes that the tree of a row has.
    fn row_weight(&self) -> u128
        ensures { result ≡ row_weight self.now }
    {
        1 + 2 * self.columns.len() as u128
    }

    // How many nodes a part of the document has at most.
    fn part_weight(&self, part: Part) -> u128
        ensures { result ≡ part_weight self.now (Some part) }
    {
        let row = self.row_weight();
        match part {
            Part::Name => 1 + room(None) * row,
            Part::Rows(after) => room(after) * row,
        }
    }

    /// How many nodes a hole stands for at most; `None` exactly where the document doesn't know the hole. Constant time, no memory.
    pub fn weight(&self, hole: HoleId) -> Option<u128>
        ensures { MatchOption result (knows self.now hole ≡ false)
            (λ count. (knows self.now hole ≡ true) × (count ≡ weight self.now hole)) }
    {
        match Part::of_hole(hole) {
            None => None,
            Some(part) => Some(self.part_weight(part)),
        }
    }
}
