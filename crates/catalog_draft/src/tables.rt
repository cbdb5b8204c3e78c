// What is written of the tables of a schema.
ghost use Rattle.std.specs.Prelude.{◌≡◌, ◌++◌, [], ◌∷◌, ℕ, List, Some, Ok, Err, IfOk, IfErr, OnOk, not, map, option_map};
ghost use Rattle.std.specs.List.{filter, find};
ghost use Rattle.mix_words.specs.Words.{is_sql_name};
ghost use Rattle.catalog_draft.specs.Lines.{column_note, text_of};
ghost use Rattle.catalog_draft.specs.Tables.{can_name, draft, key_of, keyed, lines_for, named, table_source, tables_text};
ghost use Rattle.catalog_draft.specs.Written.{IsWritten};

use crate::columns::{can_name, named_columns};
use crate::lines::{Named, push_column_note, push_table, push_table_note};
use crate::reasons::{Unsaid, unsaid_of};
use mix_catalog::{Column, SourceKind, SourceSpec, TableColumns};
use mix_tree::Label;
use mix_words::words::is_sql_name;
use schema_keep::TableShape;
use std::alloc::{AllocError, Global};

/// What was written so far: the text, and the sources that it says.
#[derive(Drop)]
struct Written {
    text: Vec<u8>,
    sources: Vec<SourceSpec>,
}

// The source that a table of a file is to be, by a key.
fn table_source(
    alloc: Global,
    path: &Label,
    table: &TableShape,
    key: &Label,
) -> Result<SourceSpec, AllocError>
    ensures { IfOk result (λ source. source ≡ table_source path.now table.now key.now) }
{
    Ok(SourceSpec {
        name: table.name.copy(alloc)?,
        chunk: 100,
        kind: SourceKind::Table {
            file: path.copy(alloc)?,
            table: table.name.copy(alloc)?,
            key: key.copy(alloc)?,
            columns: TableColumns::new(named_columns(alloc, table.columns.as_slice())?),
        },
    })
}

// The first of some names that a catalog can say.
fn first_named(names: &[Label]) -> Option<&Label>
    ensures { option_map (λ name. name.now) result ≡ find is_sql_name names.now }
{
    names.iter().find(|name| is_sql_name(name.bytes()))
}

// Writes the lines of the columns of a table that no catalog can name.
fn push_column_notes(
    text: &mut Vec<u8>,
    table: &Label,
    columns: &[Column],
) -> Result<(), AllocError>
    ensures { OnOk result (text.new.items ≡ text.old.items ++ text_of (map (λ c. column_note table.now c.name) (filter (λ c. not (can_name c)) columns.now))) }
{
    for column in columns {
        push_note_unless_named(text, table, column)?;
    }
    Ok(())
}

// Writes the line of a column of a table, where no catalog can name it.
fn push_note_unless_named(
    text: &mut Vec<u8>,
    table: &Label,
    column: &Column,
) -> Result<(), AllocError>
    ensures { OnOk result (text.new.items ≡ text.old.items
        ++ text_of (map (λ c. column_note table.now c.name) (filter (λ c. not (can_name c)) (column.now ∷ [])))) }
{
    if can_name(column) {
        return Ok(());
    }
    push_column_note(text, table, &column.name)
}

// Writes the lines of a table that has a key and a place among the sources.
fn push_lines(
    text: &mut Vec<u8>,
    path: &Label,
    table: &TableShape,
    key: &Label,
    columns: &[Column],
) -> Result<(), AllocError>
    requires { columns.now ≡ named table.now }
    ensures { OnOk result (text.new.items ≡ text.old.items ++ text_of (lines_for path.now table.now (Ok key.now))) }
{
    push_column_notes(text, &table.name, table.columns.as_slice())?;
    let file = Named {
        path,
        name: &table.name,
    };
    push_table(text, &file, key, columns)
}

// Writes the line that says why no line says a table.
fn write_note(table: &TableShape, why: Unsaid, written: &mut Written) -> Result<(), AllocError>
    ensures { OnOk result ((path : List ℕ) → IsWritten path table.now (Err why) written.old written.new) }
{
    push_table_note(&mut written.text, &table.name, why)
}

// The key of a table, or why no catalog can say the table.
fn key_of(table: &TableShape) -> Result<&Label, Unsaid>
    ensures ok { IfOk result (λ key. key_of table.now ≡ Ok key.now) }
    ensures err { IfErr result (λ why. key_of table.now ≡ Err why) }
{
    if !table.is_read {
        return Err(Unsaid::NotRead);
    }
    if !is_sql_name(table.name.bytes()) {
        return Err(Unsaid::Name);
    }
    match first_named(table.keys.as_slice()) {
        Some(key) => Ok(key),
        None => Err(Unsaid::Key),
    }
}

// Writes what is to be written of a table by a key.
fn write_keyed(
    alloc: Global,
    path: &Label,
    table: &TableShape,
    key: &Label,
    written: &mut Written,
) -> Result<(), AllocError>
    ensures { OnOk result (IsWritten path.now table.now (keyed path.now written.old.sources.items table.now (Ok key.now)) written.old written.new) }
{
    let source = table_source(alloc, path, table, key)?;
    if let Some(why) = unsaid_of(&written.sources, &source) {
        drop(source);
        return write_note(table, why, written);
    }
    let columns = named_columns(alloc, table.columns.as_slice())?;
    push_lines(&mut written.text, path, table, key, &columns)?;
    written.sources.push(source)?;
    Ok(())
}

// Writes what is to be written of a table.
fn write_table(
    alloc: Global,
    path: &Label,
    table: &TableShape,
    written: &mut Written,
) -> Result<(), AllocError>
    ensures { OnOk result (IsWritten path.now table.now (draft path.now written.old.sources.items table.now) written.old written.new) }
{
    match key_of(table) {
        Ok(key) => write_keyed(alloc, path, table, key, written),
        Err(why) => write_note(table, why, written),
    }
}

/// The text that describes the tables of a file: for each a line of a catalog that says it, or a line that begins with `#` and says why none can. Before
/// the line of a table stands one with `#` for each column that is left out, since no catalog can name it.
pub fn describe_tables(
    alloc: Global,
    path: &Label,
    tables: &[TableShape],
) -> Result<Vec<u8>, AllocError>
    ensures { IfOk result (λ text. text.items ≡ tables_text path.now tables.now) }
{
    let mut written = Written {
        text: Vec::new(alloc),
        sources: Vec::new(alloc),
    };
    for table in tables {
        write_table(alloc, path, table, &mut written)?;
    }
    Ok(written.text)
}
