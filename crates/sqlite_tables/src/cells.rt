// Rows of an SQLite file as rows of a table.
use crate::reason::{CellPlace, PageReason, RowsFault};
use mix_tree::Label;
use sqlite_value::row::Row;
use sqlite_value::value::ValueRef;
use std::alloc::Global;
use table_keep::{Cell, TableRow};

// The cell of a text that stands at a place; bytes that are not UTF-8 are a fault.
fn text_cell(alloc: Global, bytes: &[u8], place: CellPlace) -> Result<Cell, RowsFault> {
    match Label::new(alloc, bytes)? {
        Some(text) => Ok(Cell::Text(text)),
        None => Err(RowsFault::Failed(PageReason::NotUtf8(place))),
    }
}

// The cell of a value that stands at a place; a REAL is a fault.
fn cell(alloc: Global, value: ValueRef<'_>, place: CellPlace) -> Result<Cell, RowsFault> {
    match value {
        ValueRef::Null => Ok(Cell::Null),
        ValueRef::Int(number) => Ok(Cell::Int(number)),
        ValueRef::Real(_) => Err(RowsFault::Failed(PageReason::Real(place))),
        ValueRef::Text(bytes) => text_cell(alloc, bytes, place),
        ValueRef::Blob(bytes) => Ok(Cell::Bytes(bytes.to_vec(alloc)?)),
    }
}

// So many cells of a row, after its key; fewer are a fault.
fn cells(alloc: Global, row: &Row, key: i64, count: usize) -> Result<Vec<Cell>, RowsFault> {
    if row.len() <= count {
        return Err(RowsFault::Failed(PageReason::Short(key)));
    }
    let mut cells = Vec::new(alloc);
    for column in 0..count {
        let place = CellPlace { key, column };
        cells.push(cell(alloc, row.get(column + 1), place)?)?;
    }
    Ok(cells)
}

// The row of a key and so many cells; a key that is no whole number is a fault.
fn table_row(alloc: Global, row: &Row, count: usize) -> Result<TableRow, RowsFault> {
    let ValueRef::Int(key) = row.get(0) else {
        return Err(RowsFault::Failed(PageReason::Key));
    };
    Ok(TableRow {
        key,
        cells: cells(alloc, row, key, count)?,
    })
}

/// The rows, each of which has its key and then so many cells.
pub fn table_rows(alloc: Global, found: &[Row], count: usize) -> Result<Vec<TableRow>, RowsFault> {
    let mut rows = Vec::new(alloc);
    for row in found {
        rows.push(table_row(alloc, row, count)?)?;
    }
    Ok(rows)
}
