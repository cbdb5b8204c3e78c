// Why a file or a table isn't read, in words.
use sqlite_exec::run::QueryError;
use sqlite_resolve::CompileError;
use sqlite_store::OpenError;
use sqlite_trees::error::StoreError;
use std::io;
use thiserror::Error;

/// Why a file or a table isn't read, in words that a line can have after the file's name. Nothing ties it to what the file holds.
#[derive(Clone, Copy, Debug, PartialEq, Eq, Error)]
pub enum Reason {
    #[error("there is no such file")]
    NoFile,
    #[error("the file can't be read")]
    Unreadable,
    /// The file, or what stands in the place of its log.
    #[error("the file or its log is no regular file")]
    NotRegular,
    #[error("a journal stands beside the file: a writer is at work, or broke off")]
    HotJournal,
    #[error("the file is no database of SQLite's")]
    NoDatabase,
    /// Of the kinds that docs/FORMATS.md names ("SQLite files").
    #[error("the file is a database of a kind that isn't read, or is damaged")]
    OtherKind,
    #[error("a page of the file is damaged")]
    Damaged,
    #[error("the file has no such table")]
    NoTable,
    #[error("the table is of a kind that isn't read")]
    OtherTable,
    #[error("the table has no such key")]
    NoKey,
    /// The column that is asked at this place, from 0 on.
    #[error("the table has no such column")]
    NoColumn(usize),
    /// One of those that are asked, of what is no table.
    #[error("the view has no such key or column")]
    NoName,
    #[error("some rows lack the key, since it was added later")]
    LateKey,
    #[error("a view isn't read in a file in which a column has a default")]
    LateView,
    #[error("a row lacks a column whose default isn't known")]
    NoDefault,
    #[error("rows lack a column, and have no number by which they are found")]
    NoRowNumber,
    #[error("what is asked of the table isn't supported")]
    NotAnswered,
}

impl Reason {
    // The reason of a failed call of the system.
    pub(crate) fn of_system(kind: io::ErrorKind) -> Reason {
        match kind {
            io::ErrorKind::NotFound => Reason::NoFile,
            _ => Reason::Unreadable,
        }
    }

    // The reason of files that aren't opened.
    pub(crate) fn of_opening(error: OpenError) -> Reason {
        match error {
            OpenError::Io => Reason::Unreadable,
            _ => Reason::OtherKind,
        }
    }

    // The reason of a statement that isn't compiled.
    pub(crate) fn of_statement(error: CompileError) -> Reason {
        match error {
            CompileError::NoSuchTable => Reason::NoTable,
            CompileError::NoSuchColumn => Reason::NoName,
            _ => Reason::NotAnswered,
        }
    }

    // The reason of pages that aren't read.
    pub(crate) fn of_pages(error: StoreError) -> Reason {
        match error {
            StoreError::Io => Reason::Unreadable,
            _ => Reason::Damaged,
        }
    }

    // The reason of a statement that isn't run, but for its pages.
    pub(crate) fn of_run(error: QueryError) -> Reason {
        match error {
            QueryError::Store(error) => Reason::of_pages(error),
            _ => Reason::NotAnswered,
        }
    }
}
