// Tables that are asked page by page.
ghost use Rattle.std.specs.Prelude.{◌≡◌, ◌≤◌, ◌+◌, List, true, Some, None, IfOk, IfSome, OnOk, IsErrOf};
ghost use Rattle.mix_base.specs.Counts.{HasRisen, HasRisenBy};
ghost use Rattle.table_keep.specs.Page.{IsPage, first_above, keys_rise};
ghost use Rattle.table_keep.specs.Rows.{Row, rows_of};
ghost use Rattle.table_keep.specs.Views.{Declared, KeepsTables, TablesView, declared_by};

use crate::{PageAsk, PageFault, TableRow};
use std::alloc::Global;

/// Tables that are asked page by page. No call changes their rows.
pub trait Tables {
    /// What a state of the tables means.
    ghost view: { Self → TablesView };

    /// The first rows of a declared table above a key (docs/FORMATS.md, "Tables"). `Failed`: the table could not be read, and its
    /// count of faults rose. After an error the tables have the rows that they had.
    fn page(&mut self, alloc: Global, ask: &PageAsk<'_>) -> Result<Vec<TableRow>, PageFault>
        ensures keeps { KeepsTables (view self.old) (view self.new) }
        // What the answer promises.
        ensures page { IfOk result (λ rows. IsPage ask.now (rows_of rows.items)) }
        ensures first { IfOk result (λ rows. IfSome ((view self.old).told (declared_by ask.now))
            (λ told. rows_of rows.items ≡ first_above ask.now.after ask.now.limit told)) }
        // How a call changes the counts.
        ensures at_most_one { (view self.new).pages ≤ (view self.old).pages + 1 }
        ensures counted { OnOk result (HasRisen (view self.old).pages (view self.new).pages) }
        ensures counted_failed { IsErrOf result PageFault.Failed → HasRisen (view self.old).pages (view self.new).pages }
        ensures at_most_limit { (view self.new).rows ≤ (view self.old).rows + ask.now.limit }
        ensures rows { OnOk result (HasRisenBy ask.now.limit (view self.old).rows (view self.new).rows) }
        ensures rows_failed { IsErrOf result PageFault.Failed → HasRisenBy ask.now.limit (view self.old).rows (view self.new).rows }
        // For which cause a call fails.
        ensures failed { IsErrOf result PageFault.Failed
            → HasRisen ((view self.old).faults (declared_by ask.now)) ((view self.new).faults (declared_by ask.now)) };

    /// How many pages were asked; the count stands still at its end, 2^64 - 1.
    fn pages(&self) -> u64
        ensures { result ≡ (view self.now).pages };

    /// How many rows were asked for, by all pages together; the count stands still at its end, 2^64 - 1.
    fn rows(&self) -> u64
        ensures { result ≡ (view self.now).rows };

    /// The rows that are told go by rising key.
    ghost rising: { (a : Self) (d : Declared) (rows : List Row) → (view a).told d ≡ Some rows → keys_rise None rows ≡ true };
}
