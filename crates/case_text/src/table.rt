// The table that a case is run with, and which of its pages fail.
ghost use Rattle.std.specs.Prelude.{◌≡◌, true, IfOk, IfSome, ◌<◌};
ghost use Rattle.table_keep.specs.Table.{is_sound};

use crate::fault::{Defect, Fault};
use crate::part::{Part, part_of};
use mix_tree::Label;
use std::alloc::{AllocError, Global};
use table_keep::{Cell, MemTable, MemTables, TableRow};

// A label of a word.
fn label(alloc: Global, word: &str) -> Result<Label, AllocError> {
    Label::of_text(alloc, word.as_bytes())
}

// The labels of words.
fn labels(alloc: Global, words: &[&str]) -> Result<Vec<Label>, AllocError> {
    let mut labels = Vec::new(alloc);
    for word in words {
        labels.push(label(alloc, word)?)?;
    }
    Ok(labels)
}

// The bytes whose numbers a word writes, with commas between.
fn bytes_by_numbers(alloc: Global, word: &str) -> Result<Vec<u8>, Fault> {
    let mut bytes = Vec::new(alloc);
    for number in word.split(',') {
        bytes.push(number.parse::<u8>().ok().ok_or(Fault::Form)?)?;
    }
    Ok(bytes)
}

// The cell that a word writes: `-` is NULL, `'Ann` a text, `=-7` a number and `x10,255` bytes.
fn cell(alloc: Global, word: &str) -> Result<Cell, Fault> {
    if word == "-" {
        return Ok(Cell::Null);
    }
    if let Some(text) = word.strip_prefix('\'') {
        return Ok(Cell::Text(label(alloc, text)?));
    }
    if let Some(digits) = word.strip_prefix('=') {
        return Ok(Cell::Int(digits.parse::<i64>().ok().ok_or(Fault::Form)?));
    }
    let numbers = word.strip_prefix('x').ok_or(Fault::Form)?;
    Ok(Cell::Bytes(bytes_by_numbers(alloc, numbers)?))
}

// The row that words write: its key, and its cells.
fn row(alloc: Global, words: &str) -> Result<TableRow, Fault> {
    let mut words = words.split_whitespace();
    let key = words.next().ok_or(Fault::Form)?;
    let key = key.parse::<i64>().ok().ok_or(Fault::Form)?;
    let mut cells = Vec::new(alloc);
    for word in words {
        cells.push(cell(alloc, word)?)?;
    }
    Ok(TableRow { key, cells })
}

// The rows of the table of a case.
fn rows_of(alloc: Global, parts: &[Part<'_>]) -> Result<Vec<TableRow>, Fault> {
    let mut rows = Vec::new(alloc);
    for part in parts {
        if part.word == "row" {
            match row(alloc, part.rest) {
                Ok(row) => rows.push(row)?,
                Err(fault) => return Err(fault.at(part.line)),
            }
        }
    }
    Ok(rows)
}

// The labels of the names of a file, a table and its key.
fn names(
    alloc: Global,
    file: &str,
    table: &str,
    key: &str,
) -> Result<(Label, Label, Label), AllocError> {
    let file = label(alloc, file)?;
    let table = label(alloc, table)?;
    Ok((file, table, label(alloc, key)?))
}

// The table that a part names: its file, its name, its key and its columns.
fn named_table(alloc: Global, part: &Part<'_>, rows: Vec<TableRow>) -> Result<MemTable, Fault> {
    let words: Vec<&str> = part.rest.split_whitespace().collect(alloc)?;
    let [file, table, key, columns @ ..] = words.as_slice() else {
        return Err(part.wrong(Defect::Form));
    };
    let columns = labels(alloc, columns)?;
    let (file, table, key) = names(alloc, file, table, key)?;
    Ok(MemTable {
        file,
        table,
        key,
        columns,
        rows,
    })
}

// The table that a part names, whose rows fit it.
fn table(alloc: Global, part: &Part<'_>, rows: Vec<TableRow>) -> Result<MemTable, Fault>
    ensures { IfOk result (λ table. is_sound table ≡ true) }
{
    let table = named_table(alloc, part, rows)?;
    if table.is_sound() {
        Ok(table)
    } else {
        Err(part.wrong(Defect::Form))
    }
}

// The table of a case, some of whose pages fail.
fn one_table(
    alloc: Global,
    parts: &[Part<'_>],
    part: &Part<'_>,
    failing: Vec<u64>,
) -> Result<MemTables, Fault> {
    let tables = vec![in alloc; table(alloc, part, rows_of(alloc, parts)?)?]?;
    Ok(MemTables::new(alloc, tables, failing)?)
}

/// The tables of a case, none or one, of which the pages of these numbers fail.
pub fn tables_of(alloc: Global, parts: &[Part<'_>], failing: Vec<u64>) -> Result<MemTables, Fault> {
    match (part_of(parts, "table"), part_of(parts, "row")) {
        (Some(part), _) => one_table(alloc, parts, part, failing),
        (None, Some(row)) => Err(row.wrong(Defect::Beside)),
        (None, None) => Ok(MemTables::new(alloc, Vec::new(alloc), failing)?),
    }
}
