// Why a page of a table of an SQLite file is not given.
use mix_tree::Label;
use sqlite_reader::{ReadFault, Reason};
use std::alloc::{AllocError, AllocFailed, Global};
use std::str;
use table_keep::PageAsk;

/// Where a value stands: the key of its row, and the place of its column among those that are asked, from 0 on.
#[derive(Clone, Copy)]
pub struct CellPlace {
    pub key: i64,
    pub column: usize,
}

/// Why a page is not given.
#[derive(Clone, Copy)]
pub enum PageReason {
    /// The file, or the table in it, isn't read.
    Unread(Reason),
    /// The file's path is not UTF-8.
    Path,
    /// The file changed at each of some tries.
    Changing,
    /// A key is no whole number.
    Key,
    /// A row has fewer values than columns were asked.
    Short(i64),
    Real(CellPlace),
    NotUtf8(CellPlace),
    /// NULL in a column that is declared as never NULL.
    Null(CellPlace),
    /// The keys of two rows are equal.
    Twice(i64),
    /// The rows are for another reason no page of what was asked.
    NoPage,
}

/// Why rows are not given.
#[derive(Clone, Copy)]
pub enum RowsFault {
    Failed(PageReason),
    OutOfMemory,
}

impl From<AllocError> for RowsFault {
    fn from(_: AllocError) -> Self {
        RowsFault::OutOfMemory
    }
}

impl<T: Drop> From<AllocFailed<T>> for RowsFault {
    fn from(_: AllocFailed<T>) -> Self {
        RowsFault::OutOfMemory
    }
}

impl From<ReadFault> for RowsFault {
    fn from(fault: ReadFault) -> Self {
        match fault {
            ReadFault::Failed(reason) => RowsFault::Failed(PageReason::Unread(reason)),
            ReadFault::OutOfMemory => RowsFault::OutOfMemory,
        }
    }
}

// The text of a name.
fn text_of(name: &Label) -> &str {
    str::from_utf8(name.bytes()).unwrap_or("")
}

// The name of the column at a place of those that are asked.
fn column_name<'a>(ask: &PageAsk<'a>, at: usize) -> &'a str {
    match ask.columns.get(at) {
        Some(column) => text_of(&column.name),
        None => "",
    }
}

// What is said of a file or a table that isn't read, with the name that it lacks.
fn unread_text(alloc: Global, ask: &PageAsk<'_>, reason: Reason) -> Result<String, AllocError> {
    match reason {
        Reason::NoTable | Reason::OtherTable => {
            format!(in alloc; "{reason}: {}", text_of(ask.table))
        }
        Reason::NoKey | Reason::LateKey => format!(in alloc; "{reason}: {}", text_of(ask.key)),
        Reason::NoColumn(at) => format!(in alloc; "{reason}: {}", column_name(ask, at)),
        reason => format!(in alloc; "{reason}"),
    }
}

// What is said of the value at a place.
fn cell_text(
    alloc: Global,
    ask: &PageAsk<'_>,
    place: CellPlace,
    what: &str,
) -> Result<String, AllocError> {
    let name = column_name(ask, place.column);
    format!(in alloc; "column {name} of the row with key {} {what}", place.key)
}

impl PageReason {
    /// The reason in words, with the names that were asked.
    pub fn text(self, alloc: Global, ask: &PageAsk<'_>) -> Result<String, AllocError> {
        match self {
            PageReason::Unread(reason) => unread_text(alloc, ask, reason),
            PageReason::Path => String::from_str(alloc, "the path of the file is not UTF-8"),
            PageReason::Changing => String::from_str(alloc, "the file changes while it is read"),
            PageReason::Key => {
                format!(in alloc; "a key is no whole number: {}", text_of(ask.key))
            }
            PageReason::Short(key) => { format!(in alloc; "the row with key {key} lacks values") }
            PageReason::Real(place) => cell_text(alloc, ask, place, "is a REAL"),
            PageReason::NotUtf8(place) => cell_text(alloc, ask, place, "is not UTF-8"),
            PageReason::Null(place) => {
                cell_text(
                    alloc,
                    ask,
                    place,
                    "is NULL, and the catalog has ! behind it",
                )
            }
            PageReason::Twice(key) => format!(in alloc; "two rows have the key {key}"),
            PageReason::NoPage => String::from_str(alloc, "its rows are no page of it"),
        }
    }
}
