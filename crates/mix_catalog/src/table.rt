// The table of a line: what stands after its file.
ghost use Rattle.std.specs.Prelude.{◌≡◌, ◌==◌, ◌&&◌, IfOk, map, codes};
ghost use Rattle.std.specs.List.{slice_split};
ghost use Rattle.std.specs.Str.{bytes_eq};
ghost use Rattle.mix_catalog.specs.Tables.{column_named, column_of, columns_in, table_form, table_of};

use crate::form::read_chunk;
use crate::{Column, TableColumns};
use mix_tree::Label;
use mix_words::words::is_sql_name;
use std::alloc::{AllocError, Global};

/// What stands after the file of a table: its name, its key, its columns, and the most rows that a fill gives.
#[derive(Drop)]
pub struct TableAfter {
    pub table: Label,
    pub key: Label,
    pub columns: TableColumns,
    pub chunk: u32,
}

// The column of a name.
fn read_named(alloc: Global, name: &[u8], never_null: bool) -> Result<Option<Column>, AllocError>
    ensures { IfOk result (λ column. column ≡ column_named name.now never_null) }
{
    if !is_sql_name(name) {
        return Ok(None);
    }
    let name = Label::of_text(alloc, name)?;
    Ok(Some(Column { name, never_null }))
}

// The column that a piece spells: its name, and `!` where it is never NULL.
fn read_column(alloc: Global, piece: &[u8]) -> Result<Option<Column>, AllocError>
    ensures { IfOk result (λ column. column ≡ column_of piece.now) }
{
    match piece {
        [name @ .., b'!'] => read_named(alloc, name, true),
        _ => read_named(alloc, piece, false),
    }
}

// The pieces of a word between its commas.
fn cut_pieces(alloc: Global, word: &[u8]) -> Result<Vec<&[u8]>, AllocError>
    ensures { IfOk result (λ pieces. map (λ piece. piece.now) pieces.items ≡ slice_split (λ b. b == 44) word.now) }
{
    word.split(|byte| *byte == b',').collect(alloc)
}

// The columns that a word spells; `None` where it spells none.
fn read_columns(alloc: Global, word: &[u8]) -> Result<Option<TableColumns>, AllocError>
    ensures { IfOk result (λ columns. columns ≡ columns_in word.now) }
{
    let pieces = cut_pieces(alloc, word)?;
    let mut columns = Vec::new(alloc);
    for piece in pieces.iter() {
        let Some(column) = read_column(alloc, piece)? else {
            return Ok(None);
        };
        columns.push(column)?;
    }
    Ok(Some(TableColumns::new(columns)))
}

// The table of two names, of the word of its columns, and of the words after these.
fn read_table_of(
    alloc: Global,
    table: &[u8],
    key: &[u8],
    columns: &[u8],
    words: &[&[u8]],
) -> Result<Option<TableAfter>, AllocError>
    ensures { IfOk result (λ found. found ≡ table_form table.now key.now columns.now (map (λ word. word.now) words.now)) }
{
    if !is_sql_name(table) || !is_sql_name(key) {
        return Ok(None);
    }
    let Some(columns) = read_columns(alloc, columns)? else {
        return Ok(None);
    };
    let Some(chunk) = read_chunk(words) else {
        return Ok(None);
    };
    let table = Label::of_text(alloc, table)?;
    let key = Label::of_text(alloc, key)?;
    Ok(Some(TableAfter {
        table,
        key,
        columns,
        chunk,
    }))
}

// Whether two words are `key` and `columns`.
fn are_key_and_columns(key: &[u8], columns: &[u8]) -> bool
    ensures { result ≡ (bytes_eq key.now (codes "key") && bytes_eq columns.now (codes "columns")) }
{
    key == b"key".as_slice() && columns == b"columns".as_slice()
}

/// The table of these words: its name, `key` and a name, `columns` and these, `chunk` and a number. `None` where they are others.
pub fn read_table_after(alloc: Global, words: &[&[u8]]) -> Result<Option<TableAfter>, AllocError>
    ensures { IfOk result (λ found. found ≡ table_of (map (λ word. word.now) words.now)) }
{
    let [table, says_key, key, says_columns, columns, words @ ..] = words else {
        return Ok(None);
    };
    if !are_key_and_columns(says_key, says_columns) {
        return Ok(None);
    }
    read_table_of(alloc, table, key, columns, words)
}
