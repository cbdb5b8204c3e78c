// No tables.
use crate::{PageAsk, PageFault, TableRow, Tables};
use std::alloc::Global;

/// No tables: each page that is asked is a fault, and no rows are told.
#[derive(Debug, Drop)]
pub struct NoTables {
    pages: u64,
    rows: u64,
}

impl NoTables {
    ghost use Rattle.std.specs.Prelude.{◌≡◌, None};
    ghost use Rattle.table_keep.specs.Untold.{no_tables_view};
    ghost use Rattle.table_keep.specs.Views.{unasked};

    /// No tables, of which no page was asked.
    pub fn new() -> NoTables
        ensures { no_tables_view result ≡ unasked (λ _. None) }
    {
        NoTables { pages: 0, rows: 0 }
    }
}

impl Tables for NoTables {
    ghost use Rattle.table_keep.specs.Untold.{no_tables_view, untold_rise};

    ghost view = { no_tables_view };

    fn page(&mut self, _: Global, ask: &PageAsk<'_>) -> Result<Vec<TableRow>, PageFault> {
        self.pages = self.pages.saturating_add(1);
        self.rows = self.rows.saturating_add(u64::from(ask.limit));
        Err(PageFault::Failed)
    }

    fn pages(&self) -> u64 {
        self.pages
    }

    fn rows(&self) -> u64 {
        self.rows
    }

    ghost rising = { untold_rise };
}
