// Reading the rows of a CSV file.
ghost use Rattle.std.specs.Prelude.{◌≡◌, ℕ, List, [], ◌∷◌, length, IfOk, OnOk, IfErr};
ghost use Rattle.csv_wrap.specs.Csv.{Explains, IsAt, IsFile, without_marks};
ghost use Rattle.csv_wrap.specs.Table.{rows_in, IsFull};

use crate::CsvFault;
use crate::marks::without_marks;
use crate::records::{difference, read_next, reader_of};
use crate::table::{Table, put_fields};
use csv::{ByteRecord, Reader};
use document_store::Texts;
use mix_tree::Label;
use std::alloc::Global;

// Reads the header of a CSV file, which has to be the declared columns.
fn read_header(
    reader: &mut Reader<&[u8]>,
    found: &mut ByteRecord,
    columns: &[Label],
) -> Result<(), CsvFault>
    ensures read { (bytes : List ℕ) → IsAt (without_marks bytes) [] reader.old
        → OnOk result (IsAt (without_marks bytes) (columns.now ∷ []) reader.new) }
    ensures refused { (bytes : List ℕ) → IsAt (without_marks bytes) [] reader.old
        → IfErr result (Explains bytes columns.now) }
{
    if !read_next(reader, found)? {
        return Err(CsvFault::NoHeader);
    }
    match difference(found, columns) {
        None => Ok(()),
        Some(column) => Err(CsvFault::HeaderDiffers(column)),
    }
}

// A table of a number of rows and their fields, whose unused room is given back.
fn full_table(mut fields: Texts, rows: usize) -> Table
    ensures fields { result.fields ≡ fields }
    ensures rows { result.rows ≡ rows }
{
    fields.shrink();
    Table { fields, rows }
}

// The rows of a reader at the start of a file.
fn rows_of(
    alloc: Global,
    reader: &mut Reader<&[u8]>,
    found: &mut ByteRecord,
    columns: &[Label],
) -> Result<Table, CsvFault>
    ensures accepted { (bytes : List ℕ) → IsAt (without_marks bytes) [] reader.old
        → IfOk result (λ table. IsFile bytes columns.now (rows_in (length columns.now) table)) }
    ensures full { (bytes : List ℕ) → IsAt (without_marks bytes) [] reader.old
        → IfOk result (IsFull (length columns.now)) }
    ensures refused { (bytes : List ℕ) → IsAt (without_marks bytes) [] reader.old
        → IfErr result (Explains bytes columns.now) }
{
    read_header(reader, found, columns)?;
    let mut fields = Texts::new(alloc);
    'rows: for row in 1..usize::MAX {
        if !read_next(reader, found)? {
            return Ok(full_table(fields, row - 1));
        }
        if found.len() != columns.len() {
            return Err(CsvFault::Length(row, found.len(), columns.len()));
        }
        if !put_fields(&mut fields, found)? {
            return Err(CsvFault::NotUtf8(row));
        }
    }
    Err(CsvFault::OutOfMemory)
}

/// The rows of a CSV file with given columns (docs/FORMATS.md, "CSV files").
pub fn read_rows(alloc: Global, bytes: &[u8], columns: &[Label]) -> Result<Table, CsvFault>
    ensures accepted { IfOk result (λ table. IsFile bytes.now columns.now (rows_in (length columns.now) table)) }
    ensures full { IfOk result (IsFull (length columns.now)) }
    ensures refused { IfErr result (Explains bytes.now columns.now) }
{
    let mut reader = reader_of(alloc, without_marks(bytes));
    let mut found = ByteRecord::new(alloc);
    rows_of(alloc, &mut reader, &mut found, columns)
}
