// Which tables SQLite files have, with the count of those that could not be told.
ghost use Rattle.std.specs.Prelude.{◌≡◌, ◌≤◌, None};
ghost use Rattle.sqlite_tables.specs.System.{IsCounted, schemas_view};
ghost use Rattle.schema_keep.specs.Views.{unasked};

use mix_catalog::{Column, ColumnNames, TableColumns};
use mix_tree::Label;
use schema_keep::{SchemaFault, Schemas, TableShape};
use sqlite_reader::{ListedColumn, ListedTable, ReadFault, Reader};
use std::alloc::{AllocError, Global};

// Why the tables of a file are not told.
const UNREAD: &str = "it is no file of SQLite that is read";

/// Which tables SQLite files have. Each file is opened when it is asked, and only read.
pub struct SqliteSchemas {
    rt: HostRuntime,
    faults: u64,
}

impl Drop for SqliteSchemas {
    fn drop(self) {
        let SqliteSchemas { rt: _, faults: _ } = self;
    }
}

impl SqliteSchemas {
    /// The schemas of the files that the runtime reaches.
    pub fn new(rt: HostRuntime) -> SqliteSchemas
        ensures { schemas_view result ≡ unasked (λ _. None) }
    {
        SqliteSchemas { rt, faults: 0 }
    }
}

// The label of a name; what is not UTF-8 in it is replaced, so that no catalog can say it.
fn label(alloc: Global, name: &[u8]) -> Result<Label, AllocError> {
    let text = String::from_utf8_lossy(alloc, name)?;
    Label::of_text(alloc, text.as_str().as_bytes())
}

// The columns of a table.
fn columns(alloc: Global, listed: &[ListedColumn]) -> Result<Vec<Column>, AllocError> {
    let mut columns = Vec::new(alloc);
    for column in listed {
        columns.push(Column {
            name: label(alloc, &column.name)?,
            never_null: column.never_null,
        })?;
    }
    Ok(columns)
}

// The names of a row's number.
fn keys(alloc: Global, listed: &[Vec<u8>]) -> Result<Vec<Label>, AllocError> {
    let mut keys = Vec::new(alloc);
    for name in listed {
        keys.push(label(alloc, name)?)?;
    }
    Ok(keys)
}

// What is told of tables that were listed.
fn shapes(alloc: Global, listed: &[ListedTable]) -> Result<Vec<TableShape>, AllocError> {
    let mut shapes = Vec::new(alloc);
    for table in listed {
        shapes.push(TableShape {
            name: label(alloc, &table.name)?,
            is_read: table.is_read,
            keys: ColumnNames::new(keys(alloc, &table.keys)?),
            columns: TableColumns::new(columns(alloc, &table.columns)?),
        })?;
    }
    Ok(shapes)
}

// The tables of the file at a path, as it is now.
fn read(rt: &HostRuntime, alloc: Global, path: &str) -> Result<Vec<TableShape>, ReadFault> {
    let reader = Reader::open(rt, alloc, path)?;
    let listed = reader.tables(alloc)?;
    Ok(shapes(alloc, &listed)?)
}

// The fault of a file that was not read, which is counted; want of memory is none.
fn counted(fault: ReadFault, faults: &mut u64) -> SchemaFault
    ensures kept { faults.old ≤ faults.new }
    ensures failed { IsCounted faults.old faults.new result }
{
    match fault {
        ReadFault::OutOfMemory => SchemaFault::OutOfMemory,
        ReadFault::Failed(_) => {
            *faults = faults.saturating_add(1);
            SchemaFault::Failed(UNREAD)
        }
    }
}

impl Schemas for SqliteSchemas {
    ghost view = { schemas_view };

    /// Fails where the file can't be read, and where it is none of those that docs/FORMATS.md names ("SQLite files").
    fn tables(&mut self, alloc: Global, path: &str) -> Result<Vec<TableShape>, SchemaFault> {
        match read(&self.rt, alloc, path) {
            Ok(tables) => Ok(tables),
            Err(fault) => Err(counted(fault, &mut self.faults)),
        }
    }
}
