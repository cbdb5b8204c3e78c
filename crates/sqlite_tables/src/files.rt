// The files that are open, and the rows of one state of a file.
use crate::reason::{PageReason, RowsFault};
use mix_catalog::Column;
use sqlite_reader::{Query, ReadFault, Reader};
use sqlite_value::row::Row;
use std::alloc::{AllocError, Global};
use std::str;
use table_keep::PageAsk;

// How often a page is asked where the file changes meanwhile.
const TRIES: u32 = 4;

/// A file that is open, by the path that it was asked by.
pub struct OpenFile {
    path: Vec<u8>,
    reader: Reader,
}

impl Drop for OpenFile {
    fn drop(self) {
        let OpenFile { path: _, reader: _ } = self;
    }
}

// The index of the file that was asked by a path, where it is open.
fn place(files: &[OpenFile], path: &[u8]) -> Option<usize> {
    files.iter().position(|file| file.path.as_slice() == path)
}

// Takes a file out of those that are open.
fn take(files: &mut Vec<OpenFile>, path: &[u8]) -> Option<OpenFile> {
    let at = place(files.as_slice(), path)?;
    if at >= files.len() {
        return None;
    }
    Some(files.swap_remove(at))
}

// The path of the file that is asked; one that is not UTF-8 is a fault.
fn path_of<'a>(ask: &PageAsk<'a>) -> Result<&'a str, RowsFault> {
    match str::from_utf8(ask.file.bytes()) {
        Ok(path) => Ok(path),
        Err(_) => Err(RowsFault::Failed(PageReason::Path)),
    }
}

// Opens the file at a path.
fn open_file(rt: &HostRuntime, alloc: Global, path: &str) -> Result<OpenFile, ReadFault> {
    let reader = Reader::open(rt, alloc, path)?;
    Ok(OpenFile {
        path: path.as_bytes().to_vec(alloc)?,
        reader,
    })
}

// The file as it is now: the one that was open, unless it has changed.
fn fresh(
    rt: &HostRuntime,
    alloc: Global,
    kept: Option<OpenFile>,
    path: &str,
) -> Result<OpenFile, ReadFault> {
    if let Some(file) = kept {
        if file.reader.is_at(rt, alloc, path)? {
            return Ok(file);
        }
    }
    open_file(rt, alloc, path)
}

// The names of columns, in order.
fn names<'a>(alloc: Global, columns: &'a [Column]) -> Result<Vec<&'a [u8]>, AllocError> {
    let mut names = Vec::new(alloc);
    for column in columns {
        names.push(column.name.bytes())?;
    }
    Ok(names)
}

// The rows that are asked of an open file.
fn found(alloc: Global, file: &mut OpenFile, ask: &PageAsk<'_>) -> Result<Vec<Row>, ReadFault> {
    let names = names(alloc, ask.columns)?;
    let query = Query {
        table: ask.table.bytes(),
        key: ask.key.bytes(),
        columns: names.as_slice(),
        after: ask.after,
        limit: ask.limit,
    };
    file.reader.rows(alloc, &query)
}

// The rows of one state of the file, with the file; no rows where it changed meanwhile.
fn found_at_once(
    rt: &HostRuntime,
    alloc: Global,
    kept: Option<OpenFile>,
    path: &str,
    ask: &PageAsk<'_>,
) -> Result<(OpenFile, Option<Vec<Row>>), ReadFault> {
    let mut file = fresh(rt, alloc, kept, path)?;
    let rows = found(alloc, &mut file, ask)?;
    if file.reader.is_at(rt, alloc, path)? {
        Ok((file, Some(rows)))
    } else {
        Ok((file, None))
    }
}

/// The rows that are asked, all of one state of the file. A file that changes again and again while it is asked is a fault. The file stays
/// open for the next page; after a fault it doesn't.
pub fn found_rows(
    rt: &HostRuntime,
    alloc: Global,
    files: &mut Vec<OpenFile>,
    ask: &PageAsk<'_>,
) -> Result<Vec<Row>, RowsFault> {
    let path = path_of(ask)?;
    let mut kept = take(files, path.as_bytes());
    for _ in 0..TRIES {
        let (file, found) = found_at_once(rt, alloc, kept, path, ask)?;
        if let Some(rows) = found {
            files.push(file)?;
            return Ok(rows);
        }
        kept = None;
    }
    Err(RowsFault::Failed(PageReason::Changing))
}
