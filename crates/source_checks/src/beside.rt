// What is said beside the refusal of a source's file: of a CSV header that differs both names.
ghost use Rattle.std.specs.Prelude.{◌≡◌, ◌++◌, ℕ, List, IfOk, OnOk, slice_get};
ghost use Rattle.mix_io.specs.Views.{FilesView};
ghost use Rattle.mix_place.specs.Causes.{IsRead};
ghost use Rattle.source_checks.specs.Beside.{IsBeside, IsBesideCsv};
ghost use Rattle.source_checks.specs.Words.{column_words, csv_columns, field_words, names_line};

use catalog_draft::{HeaderField, header_field};
use csv_wrap::CsvFault;
use mix_catalog::SourceKind;
use mix_place::FileFault;
use mix_tree::{Label, push_label};
use std::alloc::{AllocError, Global};

/// The columns of a CSV source; of another none.
pub fn csv_columns(kind: &SourceKind) -> &[Label]
    ensures { result.now ≡ csv_columns kind.now }
{
    match kind {
        SourceKind::Csv { columns, .. } => columns.as_slice(),
        SourceKind::Bracket { .. }
        | SourceKind::Table { .. }
        | SourceKind::Remote { .. }
        | SourceKind::Json { .. }
        | SourceKind::View { .. } => &[],
    }
}

// Writes what a header has at a place.
fn push_field(words: &mut Vec<u8>, field: &HeaderField) -> Result<(), AllocError>
    ensures { OnOk result (words.new.items ≡ words.old.items ++ field_words field.now) }
{
    match field {
        HeaderField::Missing => words.extend_from_slice(b"no column"),
        HeaderField::NotUtf8 => words.extend_from_slice(b"a name that is not UTF-8"),
        HeaderField::Named(name) => push_label(words, name),
    }
}

// Writes the column that a catalog has at a place.
fn push_column(words: &mut Vec<u8>, columns: &[Label], at: usize) -> Result<(), AllocError>
    ensures { OnOk result (words.new.items ≡ words.old.items ++ column_words (slice_get columns.now at)) }
{
    match columns.get(at) {
        Some(column) => push_label(words, column),
        None => words.extend_from_slice(b"no column"),
    }
}

// The line with both names at the place where a header differs from the columns.
fn names_line(
    alloc: Global,
    field: &HeaderField,
    columns: &[Label],
    at: usize,
) -> Result<Vec<u8>, AllocError>
    ensures { IfOk result (λ line. line.items ≡ names_line field.now columns.now at) }
{
    let mut line = Vec::from_slice(alloc, b"    there the file has ")?;
    push_field(&mut line, field)?;
    line.extend_from_slice(b", and the catalog ")?;
    push_column(&mut line, columns, at)?;
    line.extend_from_slice(b"\n")?;
    Ok(line)
}

// What is said beside the refusal of a CSV file.
fn beside_csv(
    alloc: Global,
    columns: &[Label],
    bytes: &[u8],
    fault: CsvFault,
) -> Result<Vec<u8>, AllocError>
    ensures { (files : FilesView) → (path : List ℕ) → IsRead files path bytes.now
        → IfOk result (λ words. IsBesideCsv files path columns.now fault words.items) }
{
    match fault {
        CsvFault::HeaderDiffers(at) => {
            let field = header_field(alloc, bytes, at)?;
            names_line(alloc, &field, columns, at)
        }
        CsvFault::NoHeader
        | CsvFault::Length(_, _, _)
        | CsvFault::NotUtf8(_)
        | CsvFault::OutOfMemory => Ok(Vec::new(alloc)),
    }
}

/// What is said beside the refusal of a source's file whose text was read. `Err`: memory.
pub fn beside(
    alloc: Global,
    columns: &[Label],
    bytes: &[u8],
    fault: FileFault,
) -> Result<Vec<u8>, AllocError>
    ensures { (files : FilesView) → (path : List ℕ) → IsRead files path bytes.now
        → IfOk result (λ words. IsBeside files path columns.now fault words.items) }
{
    match fault {
        FileFault::Csv(fault) => beside_csv(alloc, columns, bytes, fault),
        FileFault::Unread
        | FileFault::TooLong
        | FileFault::Document(_)
        | FileFault::Json(_)
        | FileFault::Catalog(_)
        | FileFault::Script(_)
        | FileFault::View(_)
        | FileFault::Plan(_) => Ok(Vec::new(alloc)),
    }
}
