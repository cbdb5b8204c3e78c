// CSV documents, given so many rows at a time.
ghost use Rattle.std.specs.Prelude.{◌≡◌, ◌≤◌, length};
ghost use Rattle.csv_wrap.specs.Table.{IsFull, IsShortTable};

use crate::CsvFault;
use crate::parts::Part;
use crate::reading::read_rows;
use crate::table::{Table, copy_columns, copy_short};
use lxp_core::{HoleId, OpenTree, SourceFault};
use mix_tree::Label;
use source_document::Document;
use std::alloc::Global;
use table_keep::Tables;

/// The document of a CSV file, which is given so many rows at a time.
///
/// The root's hole stands for the source's name. Its list is the name, with one hole below it, also where there are no rows.
/// That hole stands for all rows. The list of a hole for rows has the next of them, at most a chunk, each whole, and after
/// these one hole exactly where more remain. No list begins with a hole. The columns are kept once, and a row's nodes are made
/// when they are given.
#[derive(Drop)]
pub struct CsvDoc {
    pub(crate) name: Label,
    pub(crate) columns: Vec<Label>,
    pub(crate) table: Table,
    pub(crate) chunk: u32,
    ghost some: { 1 ≤ chunk },
    ghost few: { chunk ≤ 1000 },
    ghost full: { IsFull (length columns.items) table },
    ghost small: { IsShortTable name columns.items table },
}

impl CsvDoc {
    ghost use Rattle.std.specs.Prelude.{ℕ, List, true, false, IfOk, IfErr, IsErrOf, MatchOption};
    ghost use Rattle.mix_tree.specs.Forest.{alone};
    ghost use Rattle.lxp_core.specs.Fill.{Answers, IsRefusedAtOnce};
    ghost use Rattle.lxp_core.specs.Plain.{plain};
    ghost use Rattle.source_document.specs.Meaning.{without_tables};
    ghost use Rattle.csv_wrap.specs.Csv.{Explains, IsFile};
    ghost use Rattle.csv_wrap.specs.Rows.{file_tree};
    ghost use Rattle.csv_wrap.specs.Document.{chunk_of, root_hole, knows, weight, document, given, means};

    /// The document of a file with these columns, as a source of this name, to be given `chunk` rows at a time
    /// (docs/FORMATS.md, "CSV files"). A chunk is 1 to 1,000. An error says why the file is none, or that memory ran out, as
    /// it also does where the name or a column has 4 GB or more, the fields have more in all, or there are 2^32 columns.
    pub fn open(
        alloc: Global,
        bytes: &[u8],
        name: &Label,
        columns: &[Label],
        chunk: u32,
    ) -> Result<CsvDoc, CsvFault>
        requires some { 1 ≤ chunk }
        requires few { chunk ≤ 1000 }
        // The file has the columns, and the document is its rows.
        ensures document { IfOk result (λ doc. (rows : List (List (List ℕ))) × IsFile bytes.now columns.now rows
            × (document doc ≡ alone (file_tree name.now columns.now rows))) }
        ensures chunk { IfOk result (λ doc. chunk_of doc ≡ chunk) }
        // What is refused is no file with these columns, for this cause, or memory ran out.
        ensures refused { IfErr result (Explains bytes.now columns.now) }
    {
        let table = read_rows(alloc, bytes, columns)?;
        table.fields.bounds();
        Ok(CsvDoc {
            name: copy_short(alloc, name)?,
            columns: copy_columns(alloc, columns)?,
            table,
            chunk,
        })
    }

    /// The hole that stands for the root.
    pub fn root_hole(&self) -> HoleId
        ensures { result ≡ root_hole self.now }
    {
        Part::Name.hole()
    }

    /// The list of a hole. `UnknownHole`: the document doesn't know the hole. It never answers `Failed`.
    pub fn fill(&self, alloc: Global, hole: HoleId) -> Result<Vec<OpenTree>, SourceFault>
        ensures list { IfOk result (λ list. plain list.items ≡ given self.now hole) }
        ensures answers { let doc = without_tables (means self.now) in IfOk result (λ list. Answers doc doc hole (plain list.items)) }
        ensures refused { let doc = without_tables (means self.now) in IsRefusedAtOnce _ doc doc hole result }
        ensures never_failed { ¬ IsErrOf result SourceFault.Failed }
    {
        let Some(part) = self.part(hole) else {
            return Err(SourceFault::UnknownHole);
        };
        Ok(self.give_part(alloc, part)?)
    }

    /// How many nodes a hole stands for; `None` exactly where the document doesn't know the hole. It takes no memory, and no
    /// time that grows with the document.
    pub fn weight(&self, hole: HoleId) -> Option<u128>
        ensures { MatchOption result (knows self.now hole ≡ false)
            (λ count. (knows self.now hole ≡ true) × (count ≡ weight self.now hole)) }
    {
        let Some(part) = self.part(hole) else {
            return None;
        };
        Some(self.part_weight(part))
    }
}

impl Document for CsvDoc {
    ghost use Rattle.std.specs.Prelude.{◌≡◌};
    ghost use Rattle.csv_wrap.specs.Document.{given, means, means_kept, root_known};

    ghost means = { means };

    ghost gives = { λ v d h o. o ≡ given d h };

    fn whole(&self) -> HoleId {
        self.root_hole()
    }

    fn give<T: Tables>(
        &self,
        alloc: Global,
        _: &mut T,
        hole: HoleId,
    ) -> Result<Vec<OpenTree>, SourceFault> {
        self.fill(alloc, hole)
    }

    fn weigh(&self, hole: HoleId) -> Option<u128> {
        self.weight(hole)
    }

    ghost kept = { means_kept };

    ghost root_known = { root_known };
}
