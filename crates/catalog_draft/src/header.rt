// What is written of a CSV file.
ghost use Rattle.std.specs.Prelude.{◌≡◌, [], ◌∷◌, ℕ, List, IfOk, IfErr};
ghost use Rattle.catalog_draft.specs.Header.{AreFields, LacksHeader, SaysCsv, SaysLine, csv_source, header_line};
ghost use Rattle.catalog_draft.specs.Lines.{file_note, text_of};

use crate::lines::{Named, push_csv, push_file_note};
use crate::names::source_name;
use crate::reasons::{Unsaid, unsaid_of};
use crate::records::{first_record, text_fields};
use csv::ByteRecord;
use csv_wrap::CsvFault;
use mix_catalog::{ColumnNames, SourceKind, SourceSpec};
use mix_tree::Label;
use std::alloc::{AllocError, Global};

// The source that a CSV file with columns is to be.
fn csv_source(alloc: Global, path: &Label, columns: Vec<Label>) -> Result<SourceSpec, AllocError>
    ensures { IfOk result (λ source. source ≡ csv_source path.now columns.items) }
{
    Ok(SourceSpec {
        name: source_name(alloc, path.bytes())?,
        chunk: 100,
        kind: SourceKind::Csv {
            file: path.copy(alloc)?,
            columns: ColumnNames::new(columns),
        },
    })
}

// The text for a CSV file with columns: its line, or why there is none.
fn columns_text(alloc: Global, path: &Label, columns: Vec<Label>) -> Result<Vec<u8>, AllocError>
    ensures { IfOk result (λ text. text.items ≡ text_of (header_line path.now columns.items ∷ [])) }
{
    let mut text = Vec::new(alloc);
    let name = source_name(alloc, path.bytes())?;
    push_csv(&mut text, &Named { path, name: &name }, &columns)?;
    match unsaid_of(&[], &csv_source(alloc, path, columns)?) {
        None => Ok(text),
        Some(why) => note(alloc, path, why),
    }
}

// The text that says why no line says a CSV file.
fn note(alloc: Global, path: &Label, why: Unsaid) -> Result<Vec<u8>, AllocError>
    ensures { IfOk result (λ text. text.items ≡ text_of (file_note path.now why ∷ [])) }
{
    let mut text = Vec::new(alloc);
    push_file_note(&mut text, path, why)?;
    Ok(text)
}

// The text for a CSV file of a header, by its fields, where they are text.
fn fields_text(
    alloc: Global,
    path: &Label,
    fields: Option<Vec<Label>>,
) -> Result<Vec<u8>, AllocError>
    ensures { IfOk result (λ text. (header : List (List ℕ)) → AreFields header fields → SaysLine path.now header text.items) }
{
    match fields {
        Some(columns) => columns_text(alloc, path, columns),
        None => note(alloc, path, Unsaid::NotUtf8),
    }
}

/// The text that describes a CSV file: the line of a catalog that says it, with the columns of its header, or a line that begins with `#` and says
/// why no catalog can say it.
///
/// # Errors
///
/// `NoHeader`: the file has no record. `OutOfMemory` may come with any file, and no other error comes.
pub fn describe_csv(alloc: Global, path: &Label, bytes: &[u8]) -> Result<Vec<u8>, CsvFault>
    ensures says { IfOk result (λ text. SaysCsv path.now bytes.now text.items) }
    ensures refused { IfErr result (LacksHeader bytes.now) }
{
    let mut found = ByteRecord::new(alloc);
    if !first_record(alloc, bytes, &mut found)? {
        return Err(CsvFault::NoHeader);
    }
    let fields = text_fields(alloc, &found)?;
    Ok(fields_text(alloc, path, fields)?)
}
