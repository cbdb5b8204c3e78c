// Columns that a table was given when it had rows already. Such a row ends before the column, whose default stands in its place.
use crate::{Query, ReadFault, Reason};
use page_disk::PageDisk;
use sqlite_schema::code::{lend_value, own_value};
use sqlite_schema::names::same_name;
use sqlite_schema::schema::{Column, Kind, Schema, Table};
use sqlite_sql::numeral::is_numeral;
use sqlite_store::FileStore;
use sqlite_trees::store::Store;
use sqlite_value::row::Row;
use sqlite_value::value::{Value, ValueRef};
use std::alloc::{AllocError, Global};

/// The names by which SQLite knows the number of a row.
pub const ROW_NUMBERS: [&[u8]; 3] = [b"rowid", b"oid", b"_rowid_"];

/// A column that rows of its table may lack, and that is asked.
#[derive(Drop)]
pub struct Late {
    // Which of the values that are asked it is.
    at: usize,
    // Where a row that has it has it.
    place: usize,
    // What stands for it in a row that ends before; nothing where that isn't known here.
    default: Option<Value>,
}

// Whether a default stands in its column as it is written: the column's type turns it into no other value.
fn stays(kind: Kind, default: ValueRef<'_>) -> bool {
    match default {
        ValueRef::Null | ValueRef::Blob(_) => true,
        ValueRef::Int(_) => matches!(kind, Kind::Any | Kind::Blob | Kind::Integer),
        ValueRef::Real(_) => false,
        ValueRef::Text(text) => match kind {
            Kind::Any | Kind::Blob | Kind::Text => true,
            Kind::Integer => !is_numeral(text),
            Kind::Real => false,
        },
    }
}

// Whether a value is NULL.
fn is_null(value: ValueRef<'_>) -> bool {
    matches!(value, ValueRef::Null)
}

// Whether a row may lack a column in whose place something else than NULL stands.
fn has_default(table: &Table, column: &Column, place: usize) -> bool {
    !is_null(lend_value(&column.default)) || table.computed.as_slice().contains(&place)
}

// What stands for a column in a row that lacks it: its default, where that is not NULL and stays as it is written.
fn default_of(alloc: Global, column: &Column) -> Result<Option<Value>, AllocError> {
    let default = lend_value(&column.default);
    if is_null(default) || !stays(column.kind, default) {
        return Ok(None);
    }
    Ok(Some(own_value(alloc, default)?))
}

// What is late of the column that has this name, if there is one.
fn late_column(
    alloc: Global,
    table: &Table,
    name: &[u8],
    at: usize,
) -> Result<Option<Late>, AllocError> {
    let Some(number) = table.column_named(name) else {
        return Ok(None);
    };
    let column = &table.columns.as_slice()[number];
    let place = table.place_of(number);
    if place == 0 || !has_default(table, column, place) {
        return Ok(None);
    }
    Ok(Some(Late {
        at,
        place,
        default: default_of(alloc, column)?,
    }))
}

/// The columns that are asked and may be missing in rows. A key that may be missing is a fault, since rows are found by it.
pub fn late_columns(
    alloc: Global,
    table: &Table,
    query: &Query<'_>,
) -> Result<Vec<Late>, ReadFault> {
    if late_column(alloc, table, query.key, 0)?.is_some() {
        return Err(ReadFault::Failed(Reason::LateKey));
    }
    let mut all = Vec::new(alloc);
    let mut at = 0usize;
    for name in query.columns {
        at = at.saturating_add(1);
        if let Some(late) = late_column(alloc, table, name, at)? {
            all.push(late)?;
        }
    }
    Ok(all)
}

/// Whether any row of any table may lack a column in whose place a default stands.
pub fn has_late_columns(schema: &Schema) -> bool {
    for table in schema.tables.as_slice() {
        if !table.computed.is_empty()
            || table
                .columns
                .as_slice()
                .iter()
                .any(|column| !is_null(lend_value(&column.default)))
        {
            return true;
        }
    }
    false
}

/// Whether a name asks for the number of a row: the key that is it has this name, or no column has.
pub fn is_row_number(table: &Table, name: &[u8]) -> bool {
    match table.column_named(name) {
        Some(number) => table.key == Some(number),
        None => true,
    }
}

/// Whether a name that is asked of a table is one of a column, or of the number of a row.
pub fn is_asked(table: &Table, name: &[u8]) -> bool {
    table.column_named(name).is_some() || ROW_NUMBERS.iter().any(|known| same_name(known, name))
}

/// A name by which the number of a row is asked: the first that no other column has.
pub fn row_number(table: &Table) -> Option<&'static [u8]> {
    if is_row_number(table, b"rowid") {
        Some(b"rowid")
    } else if is_row_number(table, b"oid") {
        Some(b"oid")
    } else if is_row_number(table, b"_rowid_") {
        Some(b"_rowid_")
    } else {
        None
    }
}

// Reads the row that has a number, as it stands in the file.
fn stored(
    alloc: Global,
    store: &mut FileStore<PageDisk>,
    tree: u32,
    number: ValueRef<'_>,
) -> Result<Row, ReadFault> {
    let ValueRef::Int(number) = number else {
        return Err(ReadFault::Failed(Reason::NoRowNumber));
    };
    let mut row = Row::new(alloc);
    if store.get(tree, number, &mut row)? {
        Ok(row)
    } else {
        Err(ReadFault::Failed(Reason::Damaged))
    }
}

// Puts the value at a place of what is asked, or the default where the row lacks the column; a default that isn't known is a fault.
fn push_value(
    filled: &mut Row,
    asked: &Row,
    at: usize,
    late: &[Late],
    len: usize,
) -> Result<(), ReadFault> {
    let missing = late
        .iter()
        .find(|column| column.at == at && column.place >= len);
    match missing {
        None => filled.push(asked.get(at))?,
        Some(
            Late {
                default: Some(value),
                ..
            },
        ) => filled.push(lend_value(value))?,
        Some(_) => return Err(ReadFault::Failed(Reason::NoDefault)),
    }
    Ok(())
}

// The values that were asked, with defaults for those that the row in the file, of this length, lacks.
fn filled(alloc: Global, asked: &Row, late: &[Late], len: usize) -> Result<Row, ReadFault> {
    let mut filled = Row::new(alloc);
    for at in 0..asked.len() {
        push_value(&mut filled, asked, at, late, len)?;
    }
    Ok(filled)
}

/// The values of a row, its number after them, with the default of each column that the row lacks.
pub fn with_defaults(
    alloc: Global,
    store: &mut FileStore<PageDisk>,
    tree: u32,
    late: &[Late],
    asked: Row,
) -> Result<Row, ReadFault> {
    if !late.iter().any(|column| is_null(asked.get(column.at))) {
        return Ok(asked);
    }
    let number = asked.get(asked.len().saturating_sub(1));
    let row = stored(alloc, store, tree, number)?;
    filled(alloc, &asked, late, row.len())
}
