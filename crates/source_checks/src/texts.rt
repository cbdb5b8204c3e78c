// Whether the text of a source's file is the document that the catalog declares.
ghost use Rattle.std.specs.Prelude.{◌≡◌, true, IfOk};
ghost use Rattle.bracket_text.specs.Stands.{SpellsTree};
ghost use Rattle.csv_wrap.specs.Stands.{HoldsRows};
ghost use Rattle.json_text.specs.Stands.{HoldsValue};
ghost use Rattle.mix_place.specs.Causes.{IsNoCsv, IsNoJson, IsNoTree};
ghost use Rattle.mix_place.specs.Documents.{StandsFor, StandsForNone, is_file_of};
ghost use Rattle.source_checks.specs.Texts.{Judges};

use bracket_text::{BracketFault, read_document};
use csv_wrap::{CsvDoc, CsvFault};
use json_text::{JsonFault, read_json};
use mix_catalog::{SourceKind, SourceSpec};
use mix_place::FileFault;
use mix_tree::Label;
use std::alloc::{AllocError, Global};

// Why a text spells no tree, where it spells none.
fn tree_fault(alloc: Global, bytes: &[u8]) -> Result<Option<FileFault>, AllocError>
    ensures { IfOk result (Judges SpellsTree IsNoTree bytes.now) }
{
    match read_document(alloc, bytes) {
        Ok(_) => Ok(None),
        Err(BracketFault::OutOfMemory) => Err(AllocError),
        Err(fault) => Ok(Some(FileFault::Document(fault))),
    }
}

// Why a text is no CSV file with columns, where it is none.
fn csv_fault(
    alloc: Global,
    name: &Label,
    columns: &[Label],
    bytes: &[u8],
) -> Result<Option<FileFault>, AllocError>
    ensures { IfOk result (Judges (HoldsRows name.now columns.now) (IsNoCsv columns.now) bytes.now) }
{
    let doc = match CsvDoc::open(alloc, bytes, name, columns, 1) {
        Ok(doc) => doc,
        Err(CsvFault::OutOfMemory) => return Err(AllocError),
        Err(fault) => return Ok(Some(FileFault::Csv(fault))),
    };
    drop(doc);
    Ok(None)
}

// Why a text is no JSON value, where it is none.
fn json_fault(alloc: Global, name: &Label, bytes: &[u8]) -> Result<Option<FileFault>, AllocError>
    ensures { IfOk result (Judges (HoldsValue name.now) IsNoJson bytes.now) }
{
    let nodes = match read_json(alloc, name, bytes) {
        Ok(nodes) => nodes,
        Err(JsonFault::OutOfMemory) => return Err(AllocError),
        Err(fault) => return Ok(Some(FileFault::Json(fault))),
    };
    drop(nodes);
    Ok(None)
}

/// Why a text is not what the file of a source is to have, where it isn't. `Err`: memory.
pub fn fault_of(
    alloc: Global,
    spec: &SourceSpec,
    bytes: &[u8],
) -> Result<Option<FileFault>, AllocError>
    requires { is_file_of spec.now.kind ≡ true }
    ensures { IfOk result (Judges (StandsFor spec.now.name spec.now.kind) (StandsForNone spec.now.kind) bytes.now) }
{
    match &spec.kind {
        SourceKind::Bracket { .. } => tree_fault(alloc, bytes),
        SourceKind::Csv { columns, .. } => {
            csv_fault(alloc, &spec.name, columns.as_slice(), bytes)
        }
        SourceKind::Json { .. } => json_fault(alloc, &spec.name, bytes),
        SourceKind::Table { .. } | SourceKind::Remote { .. } | SourceKind::View { .. } => {
            unreachable!()
        }
    }
}
