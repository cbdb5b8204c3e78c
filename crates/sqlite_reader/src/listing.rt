// Which tables a file has, by its schema.
use crate::defaults::{ROW_NUMBERS, is_row_number};
use sqlite_schema::names::same_name;
use sqlite_schema::schema::{Column, Schema, Table, View};
use std::alloc::{AllocError, Global};

/// A column of a table: its name, and whether no row has NULL there.
#[derive(Drop)]
pub struct ListedColumn {
    pub name: Vec<u8>,
    pub never_null: bool,
}

/// A table of a file.
#[derive(Drop)]
pub struct ListedTable {
    pub name: Vec<u8>,
    /// Whether it is of a kind whose rows are read. Of another kind no more than the name is told.
    pub is_read: bool,
    /// The names by which the number of a row is asked: first that of the INTEGER PRIMARY KEY, where there is one.
    pub keys: Vec<Vec<u8>>,
    pub columns: Vec<ListedColumn>,
}

// Whether a table is SQLite's own.
fn is_own(name: &[u8]) -> bool {
    name.len() >= 7 && same_name(&name[..7], b"sqlite_")
}

// The columns of a table. The INTEGER PRIMARY KEY is never NULL.
fn columns_of(alloc: Global, table: &Table) -> Result<Vec<ListedColumn>, AllocError> {
    let mut columns = Vec::new(alloc);
    for (at, column) in table.columns.as_slice().iter().enumerate() {
        columns.push(ListedColumn {
            name: column.name.as_slice().to_vec(alloc)?,
            never_null: column.not_null || table.key == Some(at),
        })?;
    }
    Ok(columns)
}

// The column that is the INTEGER PRIMARY KEY of a table.
fn key_column(table: &Table) -> Option<&Column> {
    table.columns.as_slice().get(table.key?)
}

// The names by which the number of a row of a table is asked.
fn keys_of(alloc: Global, table: &Table) -> Result<Vec<Vec<u8>>, AllocError> {
    let mut keys = Vec::new(alloc);
    if let Some(column) = key_column(table) {
        keys.push(column.name.as_slice().to_vec(alloc)?)?;
    }
    for name in ROW_NUMBERS {
        if is_row_number(table, name) {
            keys.push(name.to_vec(alloc)?)?;
        }
    }
    Ok(keys)
}

// Lists a table that is read.
fn listed(alloc: Global, table: &Table) -> Result<ListedTable, AllocError> {
    Ok(ListedTable {
        name: table.name.as_slice().to_vec(alloc)?,
        is_read: true,
        keys: keys_of(alloc, table)?,
        columns: columns_of(alloc, table)?,
    })
}

// Lists a table that is not read.
fn unread(alloc: Global, name: &[u8]) -> Result<ListedTable, AllocError> {
    Ok(ListedTable {
        name: name.to_vec(alloc)?,
        is_read: false,
        keys: Vec::new(alloc),
        columns: Vec::new(alloc),
    })
}

/// Whether something that is kept as it is, is a table.
pub fn is_table(kept: &View) -> bool {
    match &kept.foreign {
        Some(owner) => same_name(owner.as_slice(), kept.name.as_slice()),
        None => false,
    }
}

// Adds the tables that are not read.
fn push_unread(
    alloc: Global,
    schema: &Schema,
    tables: &mut Vec<ListedTable>,
) -> Result<(), AllocError> {
    for kept in schema.views.as_slice() {
        if is_table(kept) && !is_own(kept.name.as_slice()) {
            tables.push(unread(alloc, kept.name.as_slice())?)?;
        }
    }
    Ok(())
}

/// The tables that a schema has, but for SQLite's own: those that are read, and then the others.
pub fn tables_of(alloc: Global, schema: &Schema) -> Result<Vec<ListedTable>, AllocError> {
    let mut tables = Vec::new(alloc);
    for table in schema.tables.as_slice() {
        if !is_own(table.name.as_slice()) {
            tables.push(listed(alloc, table)?)?;
        }
    }
    push_unread(alloc, schema, &mut tables)?;
    Ok(tables)
}
