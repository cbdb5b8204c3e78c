// The records of a file, read one after another.
ghost use Rattle.std.specs.Prelude.{◌≡◌, ℕ, List, [], ◌∷◌, ◌++◌, IfOk, MatchBool, MatchOption};
ghost use Rattle.csv.specs.Reading.{default_config, records, strip_bom};
ghost use Rattle.csv.specs.Records.{fields_of};
ghost use Rattle.csv_wrap.specs.Csv.{DiffersFirstAt, IsAt};

use csv::{ByteRecord, Reader, ReaderBuilder};
use mix_tree::Label;
use std::alloc::{AllocError, Global};

/// The first index at which a record and the columns differ, where one of them may have ended.
pub fn difference(found: &ByteRecord, columns: &[Label]) -> Option<usize>
    ensures { MatchOption result (fields_of found.now ≡ columns.now) (λ k. DiffersFirstAt (fields_of found.now) columns.now k) }
{
    'columns: for i in 0..columns.len() {
        let Some(field) = found.get(i) else {
            return Some(i);
        };
        if field != columns[i].bytes() {
            return Some(i);
        }
    }
    if found.len() == columns.len() {
        None
    } else {
        Some(columns.len())
    }
}

/// A reader at the start of a text that begins with no byte order mark.
pub fn reader_of(alloc: Global, text: &[u8]) -> Reader<&[u8]>
    ensures { strip_bom text.now ≡ text.now → IsAt text.now [] result }
{
    ReaderBuilder::new()
        .has_headers(false)
        .flexible(true)
        .from_reader(alloc, text)
}

/// The next record, where there is one. What `csv` refuses over memory is want of it.
pub fn read_next(reader: &mut Reader<&[u8]>, found: &mut ByteRecord) -> Result<bool, AllocError>
    ensures { (text : List ℕ) → (rows : List (List (List ℕ))) → IsAt text rows reader.old
        → IfOk result (λ more. MatchBool more (IsAt text (rows ++ fields_of found.new ∷ []) reader.new)
        (records default_config text ≡ rows)) }
{
    let Ok(more) = reader.read_byte_record(found) else {
        return Err(AllocError);
    };
    Ok(more)
}
