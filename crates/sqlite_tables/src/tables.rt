// Tables in SQLite files, with the counts of what was asked.
ghost use Rattle.std.specs.Prelude.{◌≡◌, ◌≤◌, None, Ok, IfOk, IsErrOf};
ghost use Rattle.mix_base.specs.Counts.{HasRisen};
ghost use Rattle.std.proofs.lemmas.Option.{none-some};
ghost use Rattle.sqlite_tables.specs.System.{sqlite_view};
ghost use Rattle.table_keep.specs.Page.{IsPage};
ghost use Rattle.table_keep.specs.Rows.{rows_of};
ghost use Rattle.table_keep.specs.Views.{unasked};

use crate::cells::table_rows;
use crate::files::{OpenFile, found_rows};
use crate::misfit::misfit;
use crate::reason::{PageReason, RowsFault};
use page_reasons::PageReasons;
use std::alloc::{AllocError, Global};
use table_keep::{PageAsk, PageFault, TableRow, Tables, is_page};

/// Tables in SQLite files, which are only read. A file is opened when it is first asked, and again where it has changed.
pub struct SqliteTables {
    rt: HostRuntime,
    open: Vec<OpenFile>,
    pages: u64,
    rows: u64,
    faults: u64,
    // Why the last page that failed was not given.
    last: PageReason,
}

// It is written out, so that a crate above does not prove again how each part is dropped.
impl Drop for SqliteTables {
    fn drop(self) {
        let SqliteTables {
            rt: _,
            open: _,
            pages: _,
            rows: _,
            faults: _,
            last: _,
        } = self;
    }
}

impl SqliteTables {
    /// The tables that the runtime reaches. No file is open.
    pub fn new(rt: HostRuntime, alloc: Global) -> SqliteTables
        ensures { sqlite_view result ≡ unasked (λ _. None) }
    {
        SqliteTables {
            rt,
            open: Vec::new(alloc),
            pages: 0,
            rows: 0,
            faults: 0,
            last: PageReason::NoPage,
        }
    }
}

// Whatever the file holds, what is not a page of what was asked is a fault.
fn read(
    rt: &HostRuntime,
    alloc: Global,
    files: &mut Vec<OpenFile>,
    ask: &PageAsk<'_>,
) -> Result<Vec<TableRow>, RowsFault>
    ensures { IfOk result (λ rows. IsPage ask.now (rows_of rows.items)) }
{
    let found = found_rows(rt, alloc, files, ask)?;
    let rows = table_rows(alloc, found.as_slice(), ask.columns.len())?;
    if is_page(ask, rows.as_slice()) {
        Ok(rows)
    } else {
        Err(RowsFault::Failed(misfit(ask, rows.as_slice())))
    }
}

// Counts a fault and keeps its reason; what is answered goes on as it is, and want of memory is none.
fn counted(
    answer: Result<Vec<TableRow>, RowsFault>,
    faults: &mut u64,
    last: &mut PageReason,
) -> Result<Vec<TableRow>, PageFault>
    ensures rows { IfOk result (λ rows. answer ≡ Ok rows) }
    ensures kept { faults.old ≤ faults.new }
    ensures failed { IsErrOf result PageFault.Failed → HasRisen faults.old faults.new }
{
    match answer {
        Ok(rows) => Ok(rows),
        Err(RowsFault::OutOfMemory) => Err(PageFault::OutOfMemory),
        Err(RowsFault::Failed(reason)) => {
            *faults = faults.saturating_add(1);
            *last = reason;
            Err(PageFault::Failed)
        }
    }
}

impl Tables for SqliteTables {
    ghost view = { sqlite_view };

    ghost rising = { λ _ _ rows told. absurd (none-some rows told) };

    /// Fails where the file can't be read or has no such table, key or column, where a value is a REAL or a text that isn't UTF-8, where a
    /// key is no whole number, and where the rows aren't a page of what was asked. docs/FORMATS.md has which files are refused.
    fn page(&mut self, alloc: Global, ask: &PageAsk<'_>) -> Result<Vec<TableRow>, PageFault> {
        self.pages = self.pages.saturating_add(1);
        self.rows = self.rows.saturating_add(u64::from(ask.limit));
        let answer = read(&self.rt, alloc, &mut self.open, ask);
        counted(answer, &mut self.faults, &mut self.last)
    }

    fn pages(&self) -> u64 {
        self.pages
    }

    fn rows(&self) -> u64 {
        self.rows
    }
}

impl PageReasons for SqliteTables {
    fn reason(&self, alloc: Global, ask: &PageAsk<'_>) -> Result<String, AllocError> {
        self.last.text(alloc, ask)
    }
}
