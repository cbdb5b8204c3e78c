// What is asked of a table, and what a page of it is.
ghost use Rattle.std.specs.Prelude.{◌≡◌, MatchBool, map};
ghost use Rattle.table_keep.specs.Rows.{row_of, rows_of, value_of};
ghost use Rattle.table_keep.specs.Page.{IsPage, all_fit, cells_fit, fits, is_above, keys_rise, row_fits};

use crate::{Cell, TableRow};
use mix_catalog::Column;
use mix_tree::Label;

/// The rows that are asked for: of a table of a file, by the key and with the columns that are declared, those above `after`, or
/// from the first on where it is `None`, and at most `limit` of them.
#[derive(Clone, Copy)]
pub struct PageAsk<'a> {
    pub file: &'a Label,
    pub table: &'a Label,
    pub key: &'a Label,
    pub columns: &'a [Column],
    pub after: Option<i64>,
    pub limit: u32,
}

/// The least number of bytes that a cell never has.
pub(crate) const TOO_LONG: usize = 1 << 31;

// Whether a cell may stand in a column.
fn fits(column: &Column, cell: &Cell) -> bool
    ensures { result ≡ fits column.now (value_of cell.now) }
{
    match cell {
        Cell::Null => !column.never_null,
        Cell::Int(_) => true,
        Cell::Text(text) => text.bytes().len() < TOO_LONG,
        Cell::Bytes(bytes) => bytes.len() < TOO_LONG,
    }
}

// Whether there is exactly one cell for each column, which may stand there.
fn cells_fit(columns: &[Column], cells: &[Cell]) -> bool
    ensures { result ≡ cells_fit columns.now (map value_of cells.now) }
{
    match columns {
        [] => cells.is_empty(),
        [column, columns @ ..] => match cells {
            [] => false,
            [cell, cells @ ..] => fits(column, cell) && cells_fit(columns, cells),
        },
    }
}

/// Whether a key is greater than another, where another is given.
pub(crate) fn is_above(after: Option<i64>, key: i64) -> bool
    ensures { result ≡ is_above after key }
{
    match after {
        None => true,
        Some(least) => least < key,
    }
}

/// Whether the keys of rows rise, the first of them above a given key.
pub(crate) fn keys_rise(after: Option<i64>, rows: &[TableRow]) -> bool
    ensures { result ≡ keys_rise after (rows_of rows.now) }
{
    let mut least = after;
    'rows: for row in rows {
        if !is_above(least, row.key) {
            return false;
        }
        least = Some(row.key);
    }
    true
}

// Whether a row has a cell for each column, which may stand there.
fn row_fits(columns: &[Column], row: &TableRow) -> bool
    ensures { result ≡ row_fits columns.now (row_of row.now) }
{
    cells_fit(columns, &row.cells)
}

// Whether each row has a cell for each column, which may stand there.
fn all_fit(columns: &[Column], rows: &[TableRow]) -> bool
    ensures { result ≡ all_fit columns.now (rows_of rows.now) }
{
    'rows: for row in rows {
        if !row_fits(columns, row) {
            return false;
        }
    }
    true
}

/// Whether rows are a page as it was asked for.
pub fn is_page(ask: &PageAsk<'_>, rows: &[TableRow]) -> bool
    ensures { MatchBool result (IsPage ask.now (rows_of rows.now)) (¬ IsPage ask.now (rows_of rows.now)) }
{
    rows.len() <= ask.limit as usize && keys_rise(ask.after, rows) && all_fit(ask.columns, rows)
}
