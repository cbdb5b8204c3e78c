// The lists with which a table's document answers.
ghost use Rattle.std.specs.Prelude.{◌≡◌, IfOk, None, map, FitsSigned};
ghost use Rattle.std.specs.Int.{w64};
ghost use Rattle.std.specs.List.{AllByRecursion};
ghost use Rattle.mix_tree.specs.Forest.{forest_of};
ghost use Rattle.lxp_core.specs.Open.{without_holes};
ghost use Rattle.lxp_core.specs.Plain.{plain};
ghost use Rattle.row_document.specs.Rows.{name_given};
ghost use Rattle.table_keep.specs.Rows.{rows_of, value_of};
ghost use Rattle.table_wrap.specs.Document.{columns_of, name_of, page_given};
ghost use Rattle.table_wrap.specs.declared.parts.Part.TheVariants.{Rows};
ghost use Rattle.table_wrap.specs.Parts.{hole_of};
ghost use Rattle.table_wrap.specs.Rows.{cells};
ghost use Rattle.table_wrap.specs.Wire.{AreInRange};

use crate::TableDoc;
use crate::cells::push_cell;
use crate::parts::Part;
use lxp_core::OpenTree;
use row_document::{name_list, push_rest, push_row};
use std::alloc::{AllocError, Global};
use table_keep::{Cell, TableRow};

impl TableDoc {
    // The columns of a row, each with the label of its cell below it.
    fn cells(&self, alloc: Global, found: Vec<Cell>) -> Result<Vec<OpenTree>, AllocError>
        ensures list { IfOk result (λ list. plain list.items
            ≡ without_holes (forest_of (cells (columns_of self.now) (map value_of found.items)))) }
        // Each number is one of 64 bits.
        ensures range { IfOk result (λ _. AreInRange (columns_of self.now) (map value_of found.items)) }
    {
        let mut list = Vec::with_capacity(alloc, self.columns.len())?;
        let mut rest = found.into_iter();
        'columns: for column in &self.columns {
            let Some(cell) = rest.next() else {
                return Ok(list);
            };
            push_cell(alloc, &mut list, column, cell)?;
        }
        Ok(list)
    }

    /// The list of the whole document: the source's name, above a hole for all rows.
    pub(crate) fn give_name(&self, alloc: Global) -> Result<Vec<OpenTree>, AllocError>
        ensures { IfOk result (λ list. plain list.items ≡ name_given (name_of self.now) (hole_of (Rows None))) }
    {
        name_list(alloc, &self.name, Part::Rows(None).hole())
    }

    /// The list of a page of rows above a key: each row whole, and a hole after them where they are as many as a page may have.
    pub(crate) fn give_page(
        &self,
        alloc: Global,
        after: Option<i64>,
        rows: Vec<TableRow>,
    ) -> Result<Vec<OpenTree>, AllocError>
        ensures given { IfOk result (λ list. plain list.items ≡ page_given self.now after (rows_of rows.items)) }
        // Each key is one of 64 bits.
        ensures keys { IfOk result (λ _. AllByRecursion (λ r. FitsSigned w64 r.key) (rows_of rows.items)) }
        // Each number is one of 64 bits.
        ensures range { IfOk result (λ _. AllByRecursion (λ r. AreInRange (columns_of self.now) r.values) (rows_of rows.items)) }
    {
        let full = rows.len() == self.chunk as usize;
        let mut last = after;
        // A hole after the rows takes the place of one more.
        let mut list = Vec::with_capacity(alloc, rows.len() + 1)?;
        'rows: for row in rows {
            let TableRow { key, cells } = row;
            last = Some(key);
            push_row(alloc, &mut list, self.cells(alloc, cells)?)?;
        }
        push_rest(&mut list, full, Part::Rows(last).hole())?;
        Ok(list)
    }
}
