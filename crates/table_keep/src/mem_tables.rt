// Tables in memory, which fail at the calls that a list names.
ghost use Rattle.std.specs.Prelude.{◌≡◌, true, length};
ghost use Rattle.std.specs.List.{list_all};
ghost use Rattle.table_keep.specs.Table.{is_sound};

use crate::{MemTable, PageAsk, PageFault, TableRow, Tables, is_page};
use std::alloc::{AllocError, Global};
use std::collections::BTreeSet;

/// Tables in memory. Of two tables of one file and name the first counts.
///
/// A page fails at a call that a list names, counted from 1; where there is no table of the file and the name, or it hasn't the key or
/// a column that is asked for; and where a row of the page has NULL in a column that is declared as never NULL.
#[derive(Drop)]
pub struct MemTables {
    tables: Vec<MemTable>,
    failing: BTreeSet<u64>,
    calls: u64,
    rows: u64,
    faults: u64,
    ghost sound: { list_all is_sound tables.items ≡ true },
}

impl MemTables {
    ghost use Rattle.std.specs.Prelude.{◌≡◌, ◌↔◌, ℕ, true, None, Some, Contains, IfOk, IsTrue, IsErrOf, option_map};
    ghost use Rattle.std.specs.List.{find, list_all};
    ghost use Rattle.table_keep.specs.Memory.{fails_at, mem_tables_view, page_at_call};
    ghost use Rattle.table_keep.specs.Table.{is_at, is_sound, rows_told};
    ghost use Rattle.table_keep.specs.Page.{IsPage, first_above};
    ghost use Rattle.table_keep.specs.Rows.{rows_of};
    ghost use Rattle.table_keep.specs.Views.{declared_by, unasked};

    /// Tables that fail at the calls of these numbers, counted from 1. The keys of each rise, and each of its rows has a cell for each
    /// column, none of 2^31 bytes or more.
    pub fn new(
        alloc: Global,
        tables: Vec<MemTable>,
        failing: Vec<u64>,
    ) -> Result<MemTables, AllocError>
        requires { list_all is_sound tables.items ≡ true }
        ensures view { IfOk result (λ m. mem_tables_view m ≡ unasked (rows_told tables.items)) }
        ensures failing { IfOk result (λ m. (call : ℕ) → IsTrue (fails_at m call) ↔ Contains failing.items call) }
    {
        Ok(MemTables {
            tables,
            failing: failing.into_iter().collect(alloc)?,
            calls: 0,
            rows: 0,
            faults: 0,
        })
    }

    // The first table of the file and the name that are asked for, where there is one.
    fn find<'a>(tables: &'a [MemTable], ask: &PageAsk<'_>) -> Option<&'a MemTable>
        ensures { option_map (λ table. table.now) result ≡ find (is_at ask.now.file.now ask.now.table.now) tables.now }
    {
        tables.iter().find(|table| table.is_at(ask.file, ask.table))
    }

    // The first rows above a key, where they are told.
    fn first_rows(
        &self,
        alloc: Global,
        ask: &PageAsk<'_>,
    ) -> Result<Option<Vec<TableRow>>, AllocError>
        ensures { IfOk result (λ found. option_map (λ rows. rows_of rows.items) found
            ≡ option_map (first_above ask.now.after ask.now.limit) (rows_told self.now.tables.items (declared_by ask.now))) }
    {
        match MemTables::find(&self.tables, ask) {
            None => Ok(None),
            Some(table) => table.page(alloc, ask),
        }
    }

    // The page that the call of a number gives.
    fn give(&self, alloc: Global, call: u64, ask: &PageAsk<'_>) -> Result<Vec<TableRow>, PageFault>
        ensures gives { IfOk result (λ rows. page_at_call self.now call ask.now ≡ Some (rows_of rows.items)) }
        ensures page { IfOk result (λ rows. IsPage ask.now (rows_of rows.items)) }
        ensures failed { IsErrOf result PageFault.Failed → page_at_call self.now call ask.now ≡ None }
    {
        if self.failing.contains(&call) {
            return Err(PageFault::Failed);
        }
        let Some(rows) = self.first_rows(alloc, ask)? else {
            return Err(PageFault::Failed);
        };
        if !is_page(ask, &rows) {
            return Err(PageFault::Failed);
        }
        Ok(rows)
    }
}

impl Tables for MemTables {
    ghost use Rattle.std.specs.Prelude.{◌≡◌, ◌≤◌, ◌+◌, ℕ, List, true, Some, None, IfOk, IfSome, OnOk, IsErrOf};
    ghost use Rattle.mix_base.specs.Counts.{HasRisen, HasRisenBy};
    ghost use Rattle.table_keep.specs.Memory.{fails_at, mem_tables_view, next_page};
    ghost use Rattle.table_keep.specs.Page.{IsPage, first_above};
    ghost use Rattle.table_keep.specs.Rows.{rows_of};
    ghost use Rattle.table_keep.specs.Views.{Declared, KeepsTables, declared_by};
    ghost use Rattle.table_keep.specs.Told.{told_rise};

    ghost view = { mem_tables_view };

    fn page(&mut self, alloc: Global, ask: &PageAsk<'_>) -> Result<Vec<TableRow>, PageFault>
        ensures keeps { KeepsTables (mem_tables_view self.old) (mem_tables_view self.new) }
        // What the answer promises.
        ensures page { IfOk result (λ rows. IsPage ask.now (rows_of rows.items)) }
        ensures first { IfOk result (λ rows. IfSome ((mem_tables_view self.old).told (declared_by ask.now))
            (λ told. rows_of rows.items ≡ first_above ask.now.after ask.now.limit told)) }
        // How a call changes the counts.
        ensures at_most_one { (mem_tables_view self.new).pages ≤ (mem_tables_view self.old).pages + 1 }
        ensures counted { OnOk result (HasRisen (mem_tables_view self.old).pages (mem_tables_view self.new).pages) }
        ensures counted_failed { IsErrOf result PageFault.Failed
            → HasRisen (mem_tables_view self.old).pages (mem_tables_view self.new).pages }
        ensures at_most_limit { (mem_tables_view self.new).rows ≤ (mem_tables_view self.old).rows + ask.now.limit }
        ensures rows { OnOk result (HasRisenBy ask.now.limit (mem_tables_view self.old).rows (mem_tables_view self.new).rows) }
        ensures rows_failed { IsErrOf result PageFault.Failed
            → HasRisenBy ask.now.limit (mem_tables_view self.old).rows (mem_tables_view self.new).rows }
        // For which cause a call fails.
        ensures failed { IsErrOf result PageFault.Failed → HasRisen ((mem_tables_view self.old).faults (declared_by ask.now))
            ((mem_tables_view self.new).faults (declared_by ask.now)) }
        // Which calls fail, and that no others count as faults.
        ensures gives { IfOk result (λ rows. next_page self.old ask.now ≡ Some (rows_of rows.items)) }
        ensures named { IsErrOf result PageFault.Failed → next_page self.old ask.now ≡ None }
        ensures steady { ¬ IsErrOf result PageFault.Failed
            → (d : Declared) → (mem_tables_view self.new).faults d ≡ (mem_tables_view self.old).faults d }
        ensures list { (call : ℕ) → fails_at self.new call ≡ fails_at self.old call }
    {
        self.calls = self.calls.saturating_add(1);
        self.rows = self.rows.saturating_add(u64::from(ask.limit));
        let answer = self.give(alloc, self.calls, ask);
        if let Err(PageFault::Failed) = &answer {
            self.faults = self.faults.saturating_add(1);
        }
        answer
    }

    fn pages(&self) -> u64 {
        self.calls
    }

    fn rows(&self) -> u64 {
        self.rows
    }

    ghost rising = { told_rise };
}
