// The rows of a CSV file, as they lie in memory.
ghost use Rattle.std.specs.Prelude.{◌≡◌, ◌++◌, ◌<◌, ◌^◌, length, IfOk, MatchBool};
ghost use Rattle.std.specs.List.{All};
ghost use Rattle.csv.specs.Records.{AllText, fields_of};
ghost use Rattle.document_store.specs.Texts.{IsShort};

use csv::ByteRecord;
use document_store::Texts;
use mix_tree::Label;
use std::alloc::{AllocError, Global};
use std::str;

// The most bytes of a name, and the most columns.
const MOST: usize = 4_294_967_295;

/// The rows of a file: their fields one after another, and how many rows there are.
#[derive(Drop)]
pub struct Table {
    pub fields: Texts,
    pub rows: usize,
}

/// Puts the fields of a record after other fields, and answers whether each is text. Where one isn't, the fields are no rows.
pub fn put_fields(fields: &mut Texts, found: &ByteRecord) -> Result<bool, AllocError>
    ensures { IfOk result (λ text. MatchBool text
        (AllText (fields_of found.now) × (fields.new ≡ fields.old ++ fields_of found.now))
        (¬ AllText (fields_of found.now))) }
{
    'fields: for i in 0..found.len() {
        let Some(field) = found.get(i) else {
            return Ok(false);
        };
        let Ok(_) = str::from_utf8(field) else {
            return Ok(false);
        };
        fields.push(field)?;
    }
    Ok(true)
}

/// A copy of a label that is shorter than 2^32. A longer one is refused as where memory runs out.
pub fn copy_short(alloc: Global, label: &Label) -> Result<Label, AllocError>
    ensures same { IfOk result (λ copy. copy ≡ label.now) }
    ensures short { IfOk result (λ copy. IsShort copy) }
{
    if label.bytes().len() > MOST {
        return Err(AllocError);
    }
    label.copy(alloc)
}

/// A copy of the names of columns, which are less than 2^32, and each of them shorter than that. Others are refused as
/// where memory runs out.
pub fn copy_columns(alloc: Global, columns: &[Label]) -> Result<Vec<Label>, AllocError>
    ensures same { IfOk result (λ copies. copies.items ≡ columns.now) }
    ensures short { IfOk result (λ copies. All IsShort copies.items) }
    ensures few { IfOk result (λ copies. length copies.items < 2 ^ 32) }
{
    if columns.len() > MOST {
        return Err(AllocError);
    }
    let mut copies = Vec::new(alloc);
    'columns: for i in 0..columns.len() {
        copies.push(copy_short(alloc, &columns[i])?)?;
    }
    Ok(copies)
}
