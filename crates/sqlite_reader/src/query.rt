// What is asked of a table, and the statement that asks it.
use std::alloc::{AllocError, Global};

/// The first rows of a table whose key is above a number, by rising key. The key and the columns are columns of the table, or a name by
/// which SQLite knows the number of a row.
#[derive(Clone, Copy)]
pub struct Query<'a> {
    pub table: &'a [u8],
    pub key: &'a [u8],
    pub columns: &'a [&'a [u8]],
    /// Without a number the first rows of all.
    pub after: Option<i64>,
    /// How many rows are asked at most.
    pub limit: u32,
}

// A name between quotes; a quote in it is written twice.
fn push_quoted(text: &mut Vec<u8>, name: &[u8]) -> Result<(), AllocError> {
    text.push(b'"')?;
    for byte in name {
        if *byte == b'"' {
            text.push(b'"')?;
        }
        text.push(*byte)?;
    }
    text.push(b'"')?;
    Ok(())
}

// Writes a column with its table's name before it, so that a column that there isn't is an error, and no string.
fn push_column(text: &mut Vec<u8>, table: &[u8], name: &[u8]) -> Result<(), AllocError> {
    push_quoted(text, table)?;
    text.push(b'.')?;
    push_quoted(text, name)
}

// Writes the key and the columns that are asked, with commas between them.
fn push_columns(text: &mut Vec<u8>, query: &Query<'_>) -> Result<(), AllocError> {
    push_column(text, query.table, query.key)?;
    for name in query.columns {
        text.push(b',')?;
        push_column(text, query.table, name)?;
    }
    Ok(())
}

// Writes that the key is above the number; where there is none, what always holds.
fn push_condition(text: &mut Vec<u8>, query: &Query<'_>) -> Result<(), AllocError> {
    if query.after.is_some() {
        push_column(text, query.table, query.key)?;
        text.extend_from_slice(b" > ?2")?;
    } else {
        text.extend_from_slice(b"?2 IS NULL")?;
    }
    Ok(())
}

// Writes what is selected: the key, the columns, and a further one where one is named.
fn push_selection(
    text: &mut Vec<u8>,
    query: &Query<'_>,
    further: Option<&[u8]>,
) -> Result<(), AllocError> {
    text.extend_from_slice(b"SELECT ")?;
    push_columns(text, query)?;
    if let Some(name) = further {
        text.push(b',')?;
        push_column(text, query.table, name)?;
    }
    Ok(())
}

// Writes the whole statement.
fn push_statement(
    text: &mut Vec<u8>,
    query: &Query<'_>,
    further: Option<&[u8]>,
) -> Result<(), AllocError> {
    push_selection(text, query, further)?;
    text.extend_from_slice(b" FROM ")?;
    push_quoted(text, query.table)?;
    text.extend_from_slice(b" WHERE ")?;
    push_condition(text, query)?;
    text.extend_from_slice(b" ORDER BY ")?;
    push_column(text, query.table, query.key)?;
    text.extend_from_slice(b" LIMIT ?1")?;
    Ok(())
}

/// The text of the statement, which has the limit as its first parameter and the number as its second. Where a further column is named,
/// it stands after the others.
pub fn statement(
    alloc: Global,
    query: &Query<'_>,
    further: Option<&[u8]>,
) -> Result<Vec<u8>, AllocError> {
    let mut text = Vec::new(alloc);
    push_statement(&mut text, query, further)?;
    Ok(text)
}
