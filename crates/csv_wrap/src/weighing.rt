// How many nodes the parts of a CSV document have.
ghost use Rattle.std.specs.Prelude.{◌≡◌, ◌<◌, ◌^◌, Some};
ghost use Rattle.mix_tree.specs.Weight.{nodes_of};
ghost use Rattle.csv_wrap.specs.Document.{part_forest};

use crate::CsvDoc;
use crate::parts::Part;

impl CsvDoc {
    // How many nodes the rows from one on have: each has its own, and two for each column.
    fn rows_weight(&self, first: usize) -> u128
        ensures weight { result ≡ nodes_of (part_forest self.now (Some (Part.RowsFrom first))) }
        ensures few { result < 2 ^ 100 }
    {
        let left = self.table.rows.saturating_sub(first);
        let nodes = 1 + 2 * self.columns.len();
        left as u128 * nodes as u128
    }

    /// How many nodes a part of the document has.
    pub fn part_weight(&self, part: Part) -> u128
        ensures { result ≡ nodes_of (part_forest self.now (Some part)) }
    {
        match part {
            Part::Name => 1 + self.rows_weight(0),
            Part::RowsFrom(first) => self.rows_weight(first),
        }
    }
}
