// The field of a CSV file's header at a place.
ghost use Rattle.std.specs.Prelude.{IfOk};
ghost use Rattle.csv.specs.Records.{fields_of};
ghost use Rattle.catalog_draft.specs.Field.{IsFieldAt, IsHeaderField};

use crate::records::first_record;
use csv::ByteRecord;
use mix_tree::Label;
use std::alloc::{AllocError, Global};

/// What a header has at a place.
#[derive(Drop)]
pub enum HeaderField {
    /// It ends before.
    Missing,
    /// Bytes that are not UTF-8.
    NotUtf8,
    Named(Label),
}

// What a record has at a place.
fn field_at(alloc: Global, found: &ByteRecord, at: usize) -> Result<HeaderField, AllocError>
    ensures { IfOk result (IsFieldAt (fields_of found.now) at) }
{
    let Some(field) = found.get(at) else {
        return Ok(HeaderField::Missing);
    };
    match Label::new(alloc, field)? {
        Some(name) => Ok(HeaderField::Named(name)),
        None => Ok(HeaderField::NotUtf8),
    }
}

/// What the header of a CSV file has at a place, counted from 0; of a file without a record nothing is promised. `Err`: memory.
pub fn header_field(alloc: Global, bytes: &[u8], at: usize) -> Result<HeaderField, AllocError>
    ensures { IfOk result (IsHeaderField bytes.now at) }
{
    let mut found = ByteRecord::new(alloc);
    if first_record(alloc, bytes, &mut found)? {
        field_at(alloc, &found, at)
    } else {
        Ok(HeaderField::Missing)
    }
}
