// The lists with which a CSV document answers.
ghost use Rattle.std.specs.Prelude.{◌≡◌, ◌≤◌, ◌<◌, ◌+◌, [], length, get_or, min, true, false, Some, IfOk, OnOk, MatchOption};
ghost use Rattle.std.specs.Str.{IsUtf8};
ghost use Rattle.mix_tree.specs.Forest.{forest_of};
ghost use Rattle.lxp_core.specs.Open.{Open, nil, node, without_holes};
ghost use Rattle.lxp_core.specs.Plain.{plain, put_all};
ghost use Rattle.csv_wrap.specs.Parts.{part_of};
ghost use Rattle.csv_wrap.specs.Rows.{cells};
ghost use Rattle.csv_wrap.specs.Document.{columns_of, rows_of, knows, has_part, part_given};

use crate::CsvDoc;
use crate::parts::Part;
use lxp_core::{HoleId, OpenTree};
use mix_tree::Label;
use row_document::{name_list, push_node, push_rest, push_row};
use std::alloc::{AllocError, Global};

// Puts a column of a row at the end of a list of trees, with its field below it.
fn push_cell(
    alloc: Global,
    list: &mut Vec<OpenTree>,
    column: &Label,
    field: &[u8],
) -> Result<(), AllocError>
    requires { IsUtf8 field.now }
    ensures { OnOk result ((rest : Open) → put_all list.new.items rest
        ≡ put_all list.old.items (node column.now (node field.now nil nil) rest)) }
{
    let label = Label::of_text(alloc, field)?;
    let below = vec![in alloc;
        OpenTree::Node {
            label,
            kids: Vec::new(alloc)
        },
    ]?;
    push_node(list, column.copy(alloc)?, below)
}

impl CsvDoc {
    // The field of a row at a column.
    fn field(&self, row: usize, column: usize) -> &[u8]
        requires row { row < self.now.table.rows }
        requires column { column < length (columns_of self.now) }
        ensures bytes { result.now ≡ get_or (get_or (rows_of self.now) row []) column [] }
        ensures utf8 { ∥ IsUtf8 result.now ∥₁ }
    {
        // There are so many fields that their number is a usize, and with it the place below.
        let _places = self.table.fields.len();
        let width = self.columns.len();
        self.table.fields.text(row * width + column)
    }

    // The columns of a row, each with its field below it.
    fn cells(&self, alloc: Global, row: usize) -> Result<Vec<OpenTree>, AllocError>
        requires { row < self.now.table.rows }
        ensures { IfOk result (λ list. plain list.items
            ≡ without_holes (forest_of (cells (columns_of self.now) (get_or (rows_of self.now) row [])))) }
    {
        let mut list = Vec::with_capacity(alloc, self.columns.len())?;
        'columns: for column in 0..self.columns.len() {
            let field = self.field(row, column);
            push_cell(alloc, &mut list, &self.columns[column], field)?;
        }
        Ok(list)
    }

    // The index where a chunk of rows ends that begins with a given one.
    fn chunk_end(&self, first: usize) -> usize
        requires { first ≤ self.now.table.rows }
        ensures { result ≡ min (first + self.now.chunk) self.now.table.rows }
    {
        let rows = self.table.rows;
        let chunk = self.chunk as usize;
        if chunk < rows - first {
            first + chunk
        } else {
            rows
        }
    }

    // The list of the rows from one on: at most a chunk of them, each whole, and a hole after them where more remain.
    fn give_rows(&self, alloc: Global, first: usize) -> Result<Vec<OpenTree>, AllocError>
        requires { first ≤ self.now.table.rows }
        ensures { IfOk result (λ list. plain list.items ≡ part_given self.now (Some (Part.RowsFrom first))) }
    {
        let last = self.chunk_end(first);
        // A hole after the rows takes the place of one more.
        let mut list = Vec::with_capacity(alloc, last - first + 1)?;
        'rows: for row in first..last {
            push_row(alloc, &mut list, self.cells(alloc, row)?)?;
        }
        push_rest(
            &mut list,
            last < self.table.rows,
            Part::RowsFrom(last).hole(),
        )?;
        Ok(list)
    }

    // Whether the document has a part.
    fn has(&self, part: Part) -> bool
        ensures { result ≡ has_part self.now (Some part) }
    {
        match part {
            Part::Name => true,
            Part::RowsFrom(first) => first <= self.table.rows,
        }
    }

    /// The part that a hole stands for; `None` where the document doesn't know the hole.
    pub fn part(&self, hole: HoleId) -> Option<Part>
        ensures { MatchOption result (knows self.now hole ≡ false)
            (λ part. (part_of hole ≡ Some part) × (has_part self.now (Some part) ≡ true)) }
    {
        let Some(part) = Part::of_hole(hole) else {
            return None;
        };
        if self.has(part) { Some(part) } else { None }
    }

    /// The list that answers a fill of a part of the document.
    pub fn give_part(&self, alloc: Global, part: Part) -> Result<Vec<OpenTree>, AllocError>
        requires { has_part self.now (Some part) ≡ true }
        ensures { IfOk result (λ list. plain list.items ≡ part_given self.now (Some part)) }
    {
        match part {
            Part::Name => name_list(alloc, &self.name, Part::RowsFrom(0).hole()),
            Part::RowsFrom(first) => self.give_rows(alloc, first),
        }
    }
}
