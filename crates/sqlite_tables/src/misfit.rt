// Why rows are no page of what was asked.
use crate::reason::{CellPlace, PageReason};
use mix_catalog::Column;
use table_keep::{Cell, PageAsk, TableRow};

// The place of the first NULL of a row in a column that is declared as never NULL.
fn null_place(columns: &[Column], row: &TableRow) -> Option<CellPlace> {
    for (at, column) in columns.iter().enumerate() {
        if column.never_null && matches!(row.cells.get(at), Some(Cell::Null)) {
            return Some(CellPlace {
                key: row.key,
                column: at,
            });
        }
    }
    None
}

/// Why rows that were found are no page of what was asked: a NULL, two equal keys one after the other, or another reason.
pub fn misfit(ask: &PageAsk<'_>, rows: &[TableRow]) -> PageReason {
    let mut before = None;
    for row in rows {
        if before == Some(row.key) {
            return PageReason::Twice(row.key);
        }
        if let Some(place) = null_place(ask.columns, row) {
            return PageReason::Null(place);
        }
        before = Some(row.key);
    }
    PageReason::NoPage
}
