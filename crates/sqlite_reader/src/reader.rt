// A file that is open for reading, and what is asked of its tables.
use crate::closer::closer;
use crate::defaults::{Late, has_late_columns, late_columns, row_number, with_defaults};
use crate::listing::{ListedTable, tables_of};
use crate::opening::open_store;
use crate::query::statement;
use crate::stamp::{Stamp, open_log, open_plain, real_path, stamp_at};
use crate::{Query, ReadFault, Reason};
use page_disk::PageDisk;
use sqlite_disk::Files;
use sqlite_exec::budget::Budget;
use sqlite_exec::planned::run_program;
use sqlite_exec::work::Workspace;
use sqlite_resolve::{Compiled, compile};
use sqlite_schema::command::Command;
use sqlite_schema::program::{self, Program, Table};
use sqlite_schema::schema::Schema;
use sqlite_sql::query::{Index, Let, Select};
use sqlite_store::FileStore;
use sqlite_typing::accepts_program;
use sqlite_value::row::Row;
use sqlite_value::value::ValueRef;
use std::alloc::{AllocError, Global};
use std::io::Read;

// The bytes that a log has room for from the start.
const LOG_ROOM: usize = 4096;

// The pages of a file, and the room in which statements run.
struct Engine {
    store: FileStore<PageDisk>,
    work: Workspace,
}

impl Drop for Engine {
    fn drop(self) {
        // Each part is given to `drop`, so that how it is dropped is proved once.
        let Engine { store, work } = self;
        drop(store);
        drop(work);
    }
}

/// An SQLite file that is open for reading. It holds no lock, so the file may change meanwhile: `is_at` tells it.
pub struct Reader {
    engine: Engine,
    schema: Schema,
    stamp: Stamp,
}

// Dropping is written out, so that a crate above does not prove again how each part is dropped.
impl Drop for Reader {
    fn drop(self) {
        let Reader {
            engine: _,
            schema: _,
            stamp: _,
        } = self;
    }
}

// The file at a path as a disk, of the length that it has now.
fn file_disk(rt: &HostRuntime, path: &str) -> Result<PageDisk, ReadFault> {
    let file = open_plain(rt, path)?;
    let length = file.metadata()?.len();
    Ok(PageDisk::of_file(file, length as usize))
}

// The log of the database at a path as a disk in memory; an empty one where it has none.
fn log_disk(rt: &HostRuntime, alloc: Global, path: &str) -> Result<PageDisk, ReadFault> {
    // Recovery may write a header, for which no memory may be wanting then.
    let mut bytes = Vec::with_capacity(alloc, LOG_ROOM)?;
    if let Some(mut file) = open_log(rt, alloc, path)? {
        let _count = file.read_to_end(&mut bytes)?;
    }
    Ok(PageDisk::of_log(bytes))
}

// The disks of the database at a path.
fn files_at(rt: &HostRuntime, alloc: Global, path: &str) -> Result<Files<PageDisk>, ReadFault> {
    let db = file_disk(rt, path)?;
    let log = log_disk(rt, alloc, path)?;
    Ok(Files { log, db })
}

impl Engine {
    // The rows that a program gives over the pages of the file.
    fn rows(
        &mut self,
        catalog: &[Index<'_>],
        lets: &[Let<'_>],
        body: &Select<'_>,
        params: &Row,
    ) -> Result<Vec<Row>, ReadFault> {
        let mut budget = Budget::new(None);
        Ok(run_program(
            &mut self.store,
            &mut self.work,
            &mut budget,
            catalog,
            lets,
            body,
            params,
        )?)
    }
}

// The rows that a compiled program gives; a program that the schema doesn't accept is a fault.
fn run(
    alloc: Global,
    engine: &mut Engine,
    schema: &Schema,
    program: &Program,
    params: &Row,
) -> Result<Vec<Row>, ReadFault> {
    let catalog = schema.catalog(alloc)?;
    let loans = Table::lend_all(alloc, program.lets.as_slice())?;
    let lets = program::lets(alloc, loans.as_slice())?;
    let loan = program.body.lend(alloc)?;
    let body = loan.select();
    let rows = match accepts_program(alloc, schema, lets.as_slice(), &body, params) {
        Ok(true) => engine.rows(catalog.as_slice(), lets.as_slice(), &body, params),
        Ok(false) => Err(ReadFault::Failed(Reason::NotAnswered)),
        Err(error) => Err(error.into()),
    };
    // Given to `drop` as in `found`.
    drop(loan);
    rows
}

// The rows that a compiled statement gives; one that selects nothing, or has other parameters, is a fault.
fn answer(
    alloc: Global,
    engine: &mut Engine,
    schema: &Schema,
    compiled: &Compiled,
    params: &Row,
) -> Result<Vec<Row>, ReadFault> {
    if compiled.names.len() != params.len() || !compiled.formats.is_empty() {
        return Err(ReadFault::Failed(Reason::NotAnswered));
    }
    match &compiled.command {
        Command::Select(program, _) => run(alloc, engine, schema, program, params),
        _ => Err(ReadFault::Failed(Reason::NotAnswered)),
    }
}

// The parameters of a query's statement: its limit, and the number that keys are above or NULL.
fn params_of(alloc: Global, query: &Query<'_>) -> Result<Row, AllocError> {
    let mut params = Row::new(alloc);
    params.push(ValueRef::Int(query.limit as i64))?;
    params.push(match query.after {
        Some(number) => ValueRef::Int(number),
        None => ValueRef::Null,
    })?;
    Ok(params)
}

impl Reader {
    /// Opens the file at a path, and reads its schema and its log alone. Nothing is written, locked or made.
    /// docs/FORMATS.md has which files are refused.
    pub fn open(rt: &HostRuntime, alloc: Global, path: &str) -> Result<Reader, ReadFault> {
        let real = real_path(rt, path)?;
        let stamp = stamp_at(rt, alloc, real.as_str())?;
        let files = files_at(rt, alloc, real.as_str())?;
        let (store, schema) = open_store(alloc, files)?;
        let work = Workspace::new(alloc);
        Ok(Reader {
            engine: Engine { store, work },
            schema,
            stamp,
        })
    }

    /// Whether the files at the path are those that were opened, and as they were then. It fails where that can't be told.
    pub fn is_at(&self, rt: &HostRuntime, alloc: Global, path: &str) -> Result<bool, ReadFault> {
        let real = real_path(rt, path)?;
        Ok(stamp_at(rt, alloc, real.as_str())? == self.stamp)
    }

    /// The tables that the file's schema has, but for SQLite's own.
    pub fn tables(&self, alloc: Global) -> Result<Vec<ListedTable>, AllocError> {
        tables_of(alloc, &self.schema)
    }

    /// The rows that are asked: each its key and then its columns, after which its number may stand. They are rows of one state of the
    /// file only where the file has not changed since it was opened. After a fault the file is to be opened anew.
    pub fn rows(&mut self, alloc: Global, query: &Query<'_>) -> Result<Vec<Row>, ReadFault> {
        let answer = match self.schema.table_named(query.table) {
            Some(number) => self.table_rows(alloc, number, query),
            None if has_late_columns(&self.schema) => Err(ReadFault::Failed(Reason::LateView)),
            None => self.found(alloc, query, None),
        };
        match answer {
            Err(ReadFault::Failed(reason)) => {
                Err(ReadFault::Failed(closer(&self.schema, query, reason)))
            }
            answer => answer,
        }
    }

    // The rows that are asked of a table of this number, with the defaults of the columns that rows lack.
    fn table_rows(
        &mut self,
        alloc: Global,
        number: usize,
        query: &Query<'_>,
    ) -> Result<Vec<Row>, ReadFault> {
        let Some(table) = self.schema.tables.get(number) else {
            return Err(ReadFault::Failed(Reason::NoTable));
        };
        let tree = table.tree;
        let late = late_columns(alloc, table, query)?;
        if late.is_empty() {
            return self.found(alloc, query, None);
        }
        let Some(name) = row_number(table) else {
            return Err(ReadFault::Failed(Reason::NoRowNumber));
        };
        let rows = self.found(alloc, query, Some(name))?;
        self.filled(alloc, tree, late.as_slice(), rows)
    }

    // The rows with the default of each column that a row lacks.
    fn filled(
        &mut self,
        alloc: Global,
        tree: u32,
        late: &[Late],
        rows: Vec<Row>,
    ) -> Result<Vec<Row>, ReadFault> {
        let mut all = Vec::new(alloc);
        for row in rows {
            all.push(with_defaults(alloc, &mut self.engine.store, tree, late, row)?)?;
        }
        Ok(all)
    }

    // The rows that are asked as they stand in the file, with a further column where one is named.
    fn found(
        &mut self,
        alloc: Global,
        query: &Query<'_>,
        further: Option<&[u8]>,
    ) -> Result<Vec<Row>, ReadFault> {
        let text = statement(alloc, query, further)?;
        let params = params_of(alloc, query)?;
        let compiled = compile(alloc, &self.schema, text.as_slice())?;
        let rows = answer(alloc, &mut self.engine, &self.schema, &compiled, &params);
        // The statement is given to `drop`, so that how its parts are dropped is proved once.
        drop(compiled);
        rows
    }
}
