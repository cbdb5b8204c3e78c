// Documents of tables, given a page at a time.
ghost use Rattle.std.specs.Prelude.{◌≡◌, ◌≤◌, true};
ghost use Rattle.table_wrap.specs.Faults.{fault_of};
ghost use Rattle.table_wrap.specs.Wire.{fits_wire};

use crate::cells::copy_columns;
use crate::parts::Part;
use crate::wire::fits_wire;
use lxp_core::{HoleId, OpenTree, SourceFault};
use mix_catalog::{Column, SourceKind, SourceSpec};
use mix_tree::Label;
use source_document::Document;
use std::alloc::{AllocError, Global};
use table_keep::{PageAsk, PageFault, TableRow, Tables};

/// The document of a table, which is given a page of rows at a time (docs/FORMATS.md, "Tables").
///
/// The root's hole stands for the source's name. Its list is the name, with one hole below it, and asks for no page. A hole for rows
/// asks for one page of them; its list has these rows, each whole, and after them one hole exactly where they are as many as a page
/// may have. No list begins with a hole, and each is small enough for a wire. Nothing of the rows is kept.
#[derive(Drop)]
pub struct TableDoc {
    pub(crate) name: Label,
    pub(crate) file: Label,
    pub(crate) table: Label,
    pub(crate) key: Label,
    pub(crate) columns: Vec<Column>,
    pub(crate) chunk: u32,
    ghost some: { 1 ≤ chunk },
    ghost few: { chunk ≤ 1000 },
    ghost small: { fits_wire name columns.items ≡ true },
}

// The fault of a source that a page that is not given becomes.
fn source_fault(fault: PageFault) -> SourceFault
    ensures { result ≡ fault_of fault }
{
    match fault {
        PageFault::Failed => SourceFault::Failed,
        PageFault::OutOfMemory => SourceFault::OutOfMemory,
    }
}

impl TableDoc {
    ghost use Rattle.std.specs.Prelude.{◌≡◌, Some, None, true, false, IfOk, OnOk, IsErrOf};
    ghost use Rattle.mix_base.specs.Counts.{HasRisen};
    ghost use Rattle.lxp_core.specs.Fill.{Answers, IsRefusedAtOnce};
    ghost use Rattle.lxp_core.specs.Plain.{plain};
    ghost use Rattle.table_keep.specs.Page.{IsPageOf, first_above};
    ghost use Rattle.table_keep.specs.Rows.{rows_of as plain_rows};
    ghost use Rattle.table_keep.specs.Views.{KeepsTables};
    ghost use Rattle.source_document.specs.Meaning.{IsPaged, over};
    ghost use Rattle.table_wrap.specs.Document.{AreFirst, IsAnswer, IsGiven, asks, chunk_of, columns_of, declared_in, declared_of, is_table_of, means, name_of, root_hole};
    ghost use Rattle.table_wrap.specs.Parts.{part_of};
    ghost use Rattle.table_wrap.specs.declared.parts.Part.TheVariants.{Rows};

    /// The document of a table that a catalog declares, which is to be given `chunk` rows at a time. A chunk is 1 to 1,000.
    /// `AllocError`: memory ran out; it comes too where the source's name or a column's has 2^32 bytes or more, and where there are 2^32
    /// columns or more, since lists of such a document could be too large for a wire (docs/FORMATS.md, "Requests and replies").
    pub fn open(alloc: Global, spec: &SourceSpec) -> Result<TableDoc, AllocError>
        requires table { is_table_of spec.now.kind ≡ true }
        requires some { 1 ≤ spec.now.chunk }
        requires few { spec.now.chunk ≤ 1000 }
        ensures name { IfOk result (λ d. name_of d ≡ spec.now.name) }
        ensures chunk { IfOk result (λ d. chunk_of d ≡ spec.now.chunk) }
        ensures declared { IfOk result (λ d. declared_in spec.now.kind ≡ Some (declared_of d)) }
    {
        let SourceKind::Table {
            file,
            table,
            key,
            columns,
        } = &spec.kind
        else {
            return Err(AllocError);
        };
        if !fits_wire(&spec.name, columns.as_slice()) {
            return Err(AllocError);
        }
        Ok(TableDoc {
            name: spec.name.copy(alloc)?,
            file: file.copy(alloc)?,
            table: table.copy(alloc)?,
            key: key.copy(alloc)?,
            columns: copy_columns(alloc, columns.as_slice())?,
            chunk: spec.chunk,
        })
    }

    /// The hole that stands for the root.
    pub fn root_hole(&self) -> HoleId
        ensures { result ≡ root_hole self.now }
    {
        Part::Name.hole()
    }

    // The page of rows above a key.
    fn page<T: Tables>(
        &self,
        alloc: Global,
        t: &mut T,
        after: Option<i64>,
    ) -> Result<Vec<TableRow>, SourceFault>
        ensures keeps { KeepsTables (T.view t.old) (T.view t.new) }
        ensures page { IfOk result (λ rows. IsPageOf after (chunk_of self.now) (columns_of self.now) (plain_rows rows.items)) }
        ensures first { IfOk result (λ rows. AreFirst (T.view t.old) self.now after (plain_rows rows.items)) }
        ensures paged { IsPaged (chunk_of self.now) (T.view t.old) (T.view t.new) }
        ensures counted { OnOk result (HasRisen (T.view t.old).pages (T.view t.new).pages) }
        ensures counted_failed { IsErrOf result SourceFault.Failed → HasRisen (T.view t.old).pages (T.view t.new).pages }
        ensures failed { IsErrOf result SourceFault.Failed
            → HasRisen ((T.view t.old).faults (declared_of self.now)) ((T.view t.new).faults (declared_of self.now)) }
        ensures known { ¬ IsErrOf result SourceFault.UnknownHole }
    {
        let ask = PageAsk {
            file: &self.file,
            table: &self.table,
            key: &self.key,
            columns: &self.columns,
            after,
            limit: self.chunk,
        };
        match t.page(alloc, &ask) {
            Ok(rows) => Ok(rows),
            Err(fault) => Err(source_fault(fault)),
        }
    }

    // The list that answers a fill of the rows above a key.
    fn give_rows<T: Tables>(
        &self,
        alloc: Global,
        t: &mut T,
        after: Option<i64>,
    ) -> Result<Vec<OpenTree>, SourceFault>
        ensures keeps { KeepsTables (T.view t.old) (T.view t.new) }
        ensures answer { IfOk result (λ list. IsAnswer (T.view t.old) self.now (Some (Rows after)) (plain list.items)) }
        ensures paged { IsPaged (chunk_of self.now) (T.view t.old) (T.view t.new) }
        ensures counted { OnOk result (HasRisen (T.view t.old).pages (T.view t.new).pages) }
        ensures counted_failed { IsErrOf result SourceFault.Failed → HasRisen (T.view t.old).pages (T.view t.new).pages }
        ensures failed { IsErrOf result SourceFault.Failed
            → HasRisen ((T.view t.old).faults (declared_of self.now)) ((T.view t.new).faults (declared_of self.now)) }
        ensures known { ¬ IsErrOf result SourceFault.UnknownHole }
    {
        let rows = self.page(alloc, t, after)?;
        Ok(self.give_page(alloc, after, rows)?)
    }

    // The list that answers a fill of a part of the document.
    fn give_part<T: Tables>(
        &self,
        alloc: Global,
        t: &mut T,
        part: Part,
    ) -> Result<Vec<OpenTree>, SourceFault>
        ensures keeps { KeepsTables (T.view t.old) (T.view t.new) }
        ensures answer { IfOk result (λ list. IsAnswer (T.view t.old) self.now (Some part) (plain list.items)) }
        ensures untouched { asks (Some part) ≡ false → t.new ≡ t.old }
        ensures paged { IsPaged (chunk_of self.now) (T.view t.old) (T.view t.new) }
        ensures counted { asks (Some part) ≡ true → OnOk result (HasRisen (T.view t.old).pages (T.view t.new).pages) }
        ensures counted_failed { IsErrOf result SourceFault.Failed → HasRisen (T.view t.old).pages (T.view t.new).pages }
        ensures failed { IsErrOf result SourceFault.Failed
            → HasRisen ((T.view t.old).faults (declared_of self.now)) ((T.view t.new).faults (declared_of self.now)) }
        ensures known { ¬ IsErrOf result SourceFault.UnknownHole }
    {
        match part {
            Part::Name => Ok(self.give_name(alloc)?),
            Part::Rows(after) => self.give_rows(alloc, t, after),
        }
    }

    /// The list of a hole. `Failed`: the page of rows could not be read, and the count of faults of the declared table rose; the same
    /// hole may be asked for again. `UnknownHole`: the document doesn't know the hole.
    pub fn fill<T: Tables>(
        &self,
        alloc: Global,
        t: &mut T,
        hole: HoleId,
    ) -> Result<Vec<OpenTree>, SourceFault>
        ensures keeps { KeepsTables (T.view t.old) (T.view t.new) }
        ensures list { IfOk result (λ list. IsGiven (T.view t.old) self.now (part_of hole) (plain list.items)) }
        ensures answers { let before = over (means self.now) (T.view t.old) in let after = over (means self.now) (T.view t.new) in
            IfOk result (λ list. Answers before after hole (plain list.items)) }
        ensures refused { IsRefusedAtOnce _ (over (means self.now) (T.view t.old)) (over (means self.now) (T.view t.new)) hole result }
        // The pages: a hole of rows asks for one, of no more rows than a page may have, and no other hole touches the tables.
        ensures untouched { asks (part_of hole) ≡ false → t.new ≡ t.old }
        ensures paged { IsPaged (chunk_of self.now) (T.view t.old) (T.view t.new) }
        ensures counted { asks (part_of hole) ≡ true → OnOk result (HasRisen (T.view t.old).pages (T.view t.new).pages) }
        ensures counted_failed { IsErrOf result SourceFault.Failed → HasRisen (T.view t.old).pages (T.view t.new).pages }
    {
        let Some(part) = Part::of_hole(hole) else {
            return Err(SourceFault::UnknownHole);
        };
        self.give_part(alloc, t, part)
    }
}

impl Document for TableDoc {
    ghost use Rattle.table_wrap.specs.Document.{IsGiven, means, means_kept, root_known};
    ghost use Rattle.table_wrap.specs.Parts.{part_of};

    ghost means = { means };

    ghost gives = { λ v d h o. IsGiven v d (part_of h) o };

    fn whole(&self) -> HoleId {
        self.root_hole()
    }

    fn give<T: Tables>(
        &self,
        alloc: Global,
        tables: &mut T,
        hole: HoleId,
    ) -> Result<Vec<OpenTree>, SourceFault> {
        self.fill(alloc, tables, hole)
    }

    fn weigh(&self, hole: HoleId) -> Option<u128> {
        self.weight(hole)
    }

    ghost kept = { means_kept };

    ghost root_known = { root_known };
}
