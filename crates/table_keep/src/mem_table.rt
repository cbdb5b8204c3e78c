// A table in memory.
ghost use Rattle.std.specs.Prelude.{◌≡◌, length, map, option_map, slice_index_or, true, IfOk, ◌≤◌, drop};
ghost use Rattle.std.specs.List.{filter, list_all};
ghost use Rattle.table_keep.specs.Table.{is_at, is_row, is_short, is_sound, place_of, places_of, projected, rows_by};
ghost use Rattle.table_keep.specs.Page.{first_above, is_above};
ghost use Rattle.table_keep.specs.Rows.{null, row_of, rows_of, value_of};

use crate::page::{TOO_LONG, is_above, keys_rise};
use crate::{Cell, PageAsk, TableRow};
use mix_catalog::Column;
use mix_tree::{Label, same_label};
use std::alloc::{AllocError, Global};

/// A table of a file: the name of its key, the names of its columns, and its rows by rising key, each with a cell for each column.
#[derive(Drop)]
pub struct MemTable {
    pub file: Label,
    pub table: Label,
    pub key: Label,
    pub columns: Vec<Label>,
    pub rows: Vec<TableRow>,
}

// Whether a cell has fewer than 2^31 bytes.
fn is_short(cell: &Cell) -> bool
    ensures { result ≡ is_short (value_of cell.now) }
{
    match cell {
        Cell::Null | Cell::Int(_) => true,
        Cell::Text(text) => text.bytes().len() < TOO_LONG,
        Cell::Bytes(bytes) => bytes.len() < TOO_LONG,
    }
}

// Whether each cell has fewer than 2^31 bytes.
fn are_short(cells: &[Cell]) -> bool
    ensures { result ≡ list_all is_short (map value_of cells.now) }
{
    'cells: for cell in cells {
        if !is_short(cell) {
            return false;
        }
    }
    true
}

// Whether each row has `width` cells, each of fewer than 2^31 bytes.
fn are_rows(width: usize, rows: &[TableRow]) -> bool
    ensures { result ≡ list_all (is_row width) (rows_of rows.now) }
{
    'rows: for row in rows {
        if row.cells.len() != width || !are_short(&row.cells) {
            return false;
        }
    }
    true
}

// The place of a column among names.
fn place_of(names: &[Label], column: &Column) -> Option<usize>
    ensures { result ≡ place_of names.now column.now }
{
    names.iter().position(|name| same_label(&column.name, name))
}

// A copy of a cell.
fn copy_cell(alloc: Global, cell: &Cell) -> Result<Cell, AllocError>
    ensures { IfOk result (λ copy. value_of copy ≡ value_of cell.now) }
{
    match cell {
        Cell::Null => Ok(Cell::Null),
        Cell::Int(number) => Ok(Cell::Int(*number)),
        Cell::Text(text) => Ok(Cell::Text(text.copy(alloc)?)),
        Cell::Bytes(bytes) => Ok(Cell::Bytes(Vec::from_slice(alloc, bytes)?)),
    }
}

// A copy of the cell at a place of a row, or NULL after the last one.
fn cell_at(alloc: Global, cells: &[Cell], place: usize) -> Result<Cell, AllocError>
    ensures { IfOk result (λ copy. value_of copy ≡ slice_index_or (map value_of cells.now) place null) }
{
    match cells.get(place) {
        None => Ok(Cell::Null),
        Some(cell) => copy_cell(alloc, cell),
    }
}

// A copy of the cells at given places of a row.
fn cells_at(alloc: Global, cells: &[Cell], places: &[usize]) -> Result<Vec<Cell>, AllocError>
    ensures { IfOk result (λ copies. map value_of copies.items
        ≡ map (λ p. slice_index_or (map value_of cells.now) p null) places.now) }
{
    let mut copies = Vec::new(alloc);
    'places: for place in places {
        copies.push(cell_at(alloc, cells, *place)?)?;
    }
    Ok(copies)
}

// A copy of a row, with its cells at given places alone.
fn copy_row(alloc: Global, row: &TableRow, places: &[usize]) -> Result<TableRow, AllocError>
    ensures { IfOk result (λ copy. row_of copy ≡ projected places.now (row_of row.now)) }
{
    let key = row.key;
    let cells = cells_at(alloc, &row.cells, places)?;
    Ok(TableRow { key, cells })
}

// A copy of rows, with their cells at given places alone.
fn copy_rows(
    alloc: Global,
    rows: &[TableRow],
    places: &[usize],
) -> Result<Vec<TableRow>, AllocError>
    ensures { IfOk result (λ copies. rows_of copies.items ≡ map (projected places.now) (rows_of rows.now)) }
{
    let mut copies = Vec::new(alloc);
    'rows: for row in rows {
        copies.push(copy_row(alloc, row, places)?)?;
    }
    Ok(copies)
}

// Whether the key of a row is greater than a given key, where there is one.
fn is_row_above(after: Option<i64>, row: &TableRow) -> bool
    ensures { result ≡ is_above after row.now.key }
{
    is_above(after, row.key)
}

impl MemTable {
    /// Whether the keys rise, and each row has a cell for each column, none of them with 2^31 bytes or more.
    pub fn is_sound(&self) -> bool
        ensures { result ≡ is_sound self.now }
    {
        keys_rise(None, &self.rows) && are_rows(self.columns.len(), &self.rows)
    }

    /// Whether the table stands in a file under a name.
    pub(crate) fn is_at(&self, file: &Label, table: &Label) -> bool
        ensures { result ≡ is_at file.now table.now self.now }
    {
        same_label(&self.file, file) && same_label(&self.table, table)
    }

    // The places of columns among those of the table; `None` where the table doesn't have each of them.
    fn places(&self, alloc: Global, columns: &[Column]) -> Result<Option<Vec<usize>>, AllocError>
        ensures { IfOk result (λ found. option_map (λ places. places.items) found
            ≡ places_of self.now.columns.items columns.now) }
    {
        let mut places = Vec::new(alloc);
        'columns: for column in columns {
            let Some(place) = place_of(&self.columns, column) else {
                return Ok(None);
            };
            places.push(place)?;
        }
        Ok(Some(places))
    }

    // The index of the first row above a key.
    fn first_index(&self, after: Option<i64>) -> usize
        requires { is_sound self.now ≡ true }
        ensures bound { result ≤ length self.now.rows.items }
        ensures first { filter (λ r. is_above after r.key) (rows_of self.now.rows.items)
            ≡ rows_of (drop result self.now.rows.items) }
    {
        let rows = self.rows.as_slice();
        rows.partition_point(|row| !is_row_above(after, row))
    }

    // The first rows above a key, at most `limit`, with their cells at given places alone.
    fn first_rows(
        &self,
        alloc: Global,
        after: Option<i64>,
        limit: u32,
        places: &[usize],
    ) -> Result<Vec<TableRow>, AllocError>
        requires { is_sound self.now ≡ true }
        ensures { IfOk result (λ rows. rows_of rows.items
            ≡ first_above after limit (map (projected places.now) (rows_of self.now.rows.items))) }
    {
        let rest = self.rows.split_at(self.first_index(after)).1;
        let count = (limit as usize).min(rest.len());
        copy_rows(alloc, rest.split_at(count).0, places)
    }

    /// The first rows above a key with the columns that are asked for; `None` where the table hasn't the key or one of these.
    pub(crate) fn page(
        &self,
        alloc: Global,
        ask: &PageAsk<'_>,
    ) -> Result<Option<Vec<TableRow>>, AllocError>
        requires { is_sound self.now ≡ true }
        ensures { IfOk result (λ found. option_map (λ rows. rows_of rows.items) found
            ≡ option_map (first_above ask.now.after ask.now.limit) (rows_by self.now ask.now.key.now ask.now.columns.now)) }
    {
        if !same_label(&self.key, ask.key) {
            return Ok(None);
        }
        let Some(places) = self.places(alloc, ask.columns)? else {
            return Ok(None);
        };
        let rows = self.first_rows(alloc, ask.after, ask.limit, &places)?;
        Ok(Some(rows))
    }
}
