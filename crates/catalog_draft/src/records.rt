// The header of a CSV file: the first of its records.
ghost use Rattle.std.specs.Prelude.{◌≡◌, ◌∷◌, ◌++◌, [], List, ℕ, IfOk, MatchBool};
ghost use Rattle.csv.specs.Reading.{default_config, records, strip_bom};
ghost use Rattle.csv.specs.Records.{fields_of};
ghost use Rattle.csv_wrap.specs.Csv.{IsAt, begins_with_mark, without_marks};
ghost use Rattle.catalog_draft.specs.Header.{AreFields, IsFirst};

use csv::{ByteRecord, Reader, ReaderBuilder};
use mix_tree::Label;
use std::alloc::{AllocError, Global};

// Whether bytes begin with a byte order mark.
fn is_marked(bytes: &[u8]) -> bool
    ensures { result ≡ begins_with_mark bytes.now }
{
    bytes.len() >= 3 && bytes[0] == 0xEF && bytes[1] == 0xBB && bytes[2] == 0xBF
}

// The bytes after all byte order marks with which they begin.
#[tactic(auto, using(csv_wrap::proofs::PrefixFacts::marked_drop, csv_wrap::proofs::PrefixFacts::marked_len, csv_wrap::proofs::PrefixFacts::unmarked))]
fn after_marks(bytes: &[u8]) -> &[u8]
    ensures { result.now ≡ without_marks bytes.now }
{
    let mut rest = bytes;
    'marks: while is_marked(rest) {
        rest = rest.split_at(3).1;
    }
    rest
}

// A reader at the start of a text that begins with no byte order mark.
fn reader_of(alloc: Global, text: &[u8]) -> Reader<&[u8]>
    ensures { strip_bom text.now ≡ text.now → IsAt text.now [] result }
{
    ReaderBuilder::new()
        .has_headers(false)
        .flexible(true)
        .from_reader(alloc, text)
}

// The next record, where there is one. What `csv` refuses over memory is want of it.
fn read_next(reader: &mut Reader<&[u8]>, found: &mut ByteRecord) -> Result<bool, AllocError>
    ensures { (text : List ℕ) → (rows : List (List (List ℕ))) → IsAt text rows reader.old
        → IfOk result (λ more. MatchBool more (IsAt text (rows ++ fields_of found.new ∷ []) reader.new)
        (records default_config text ≡ rows)) }
{
    let Ok(more) = reader.read_byte_record(found) else {
        return Err(AllocError);
    };
    Ok(more)
}

/// Reads the first record of a CSV file, where there is one.
pub fn first_record(alloc: Global, bytes: &[u8], found: &mut ByteRecord) -> Result<bool, AllocError>
    ensures { IfOk result (IsFirst bytes.now (fields_of found.new)) }
{
    let mut reader = reader_of(alloc, after_marks(bytes));
    read_next(&mut reader, found)
}

/// The fields of a record, where each is text.
pub fn text_fields(alloc: Global, found: &ByteRecord) -> Result<Option<Vec<Label>>, AllocError>
    ensures { IfOk result (AreFields (fields_of found.now)) }
{
    let mut labels = Vec::new(alloc);
    'fields: for i in 0..found.len() {
        let Some(field) = found.get(i) else {
            return Ok(None);
        };
        let Some(label) = Label::new(alloc, field)? else {
            return Ok(None);
        };
        labels.push(label)?;
    }
    Ok(Some(labels))
}
