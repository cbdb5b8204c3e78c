// The schemas of the databases that a case has.
use case_text::{Defect, Fault, Part};
use mix_catalog::{Column, ColumnNames, TableColumns};
use mix_tree::Label;
use schema_keep::{MemSchema, MemSchemas, TableShape};
use std::alloc::{AllocError, Global};

// A label of a word.
fn label(alloc: Global, word: &str) -> Result<Label, AllocError> {
    Label::of_text(alloc, word.as_bytes())
}

// The names that a word writes for a row's number, with commas between: `-` and `unread` write none.
fn keys_of(alloc: Global, word: &str) -> Result<Vec<Label>, AllocError> {
    let mut keys = Vec::new(alloc);
    if word != "-" && word != "unread" {
        for key in word.split(',') {
            keys.push(label(alloc, key)?)?;
        }
    }
    Ok(keys)
}

// The column that a word writes, with `!` behind the name of one that is never NULL.
fn column(alloc: Global, word: &str) -> Result<Column, AllocError> {
    let (name, never_null) = match word.strip_suffix('!') {
        Some(name) => (name, true),
        None => (word, false),
    };
    Ok(Column {
        name: label(alloc, name)?,
        never_null,
    })
}

// The columns that words write.
fn columns_of(alloc: Global, words: &[&str]) -> Result<Vec<Column>, AllocError> {
    let mut columns = Vec::new(alloc);
    for word in words {
        columns.push(column(alloc, word)?)?;
    }
    Ok(columns)
}

// The table that a line says: its name, the names of a row's number, and its columns. Of `unread` the rows can't be read.
fn table(alloc: Global, line: &str) -> Result<TableShape, Fault> {
    let words: Vec<&str> = line.split_whitespace().collect(alloc)?;
    let [name, keys, columns @ ..] = words.as_slice() else {
        return Err(Fault::Form);
    };
    Ok(TableShape {
        name: label(alloc, name)?,
        is_read: *keys != "unread",
        keys: ColumnNames::new(keys_of(alloc, keys)?),
        columns: TableColumns::new(columns_of(alloc, columns)?),
    })
}

// The schema that a part says: the path of its file, and a table in each line that follows.
fn schema(alloc: Global, part: &Part<'_>) -> Result<MemSchema, Fault> {
    let text = str::from_utf8(&part.bytes)
        .ok()
        .ok_or(part.wrong(Defect::Form))?;
    let mut tables = Vec::new(alloc);
    for line in text.lines() {
        match table(alloc, line) {
            Ok(table) => tables.push(table)?,
            Err(fault) => return Err(fault.at(part.line)),
        }
    }
    Ok(MemSchema {
        path: String::from_str(alloc, part.rest)?,
        tables,
    })
}

/// The schemas of a case.
pub fn schemas_of(alloc: Global, parts: &[Part<'_>]) -> Result<MemSchemas, Fault> {
    let mut schemas = Vec::new(alloc);
    for part in parts {
        if part.word == "schema" {
            schemas.push(schema(alloc, part)?)?;
        }
    }
    Ok(MemSchemas::new(schemas))
}
