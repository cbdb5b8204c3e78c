// Why a file or a table isn't read, or that memory ran out.
use crate::Reason;
use sqlite_exec::run::QueryError;
use sqlite_resolve::CompileError;
use sqlite_store::OpenError;
use sqlite_trees::error::StoreError;
use std::alloc::{AllocError, AllocFailed};
use std::io;
use thiserror::Error;

/// Why a file or a table isn't read. Nothing ties it to what the file holds.
#[derive(Clone, Copy, Debug, PartialEq, Eq, Error)]
pub enum ReadFault {
    /// The file can't be read, it isn't one of those that are read, or what is asked isn't in it.
    #[error("{0}")]
    Failed(Reason),
    #[error("memory ran out")]
    OutOfMemory,
}

impl From<AllocError> for ReadFault {
    fn from(_: AllocError) -> Self {
        ReadFault::OutOfMemory
    }
}

impl<T: Drop> From<AllocFailed<T>> for ReadFault {
    fn from(_: AllocFailed<T>) -> Self {
        ReadFault::OutOfMemory
    }
}

impl From<io::Error> for ReadFault {
    fn from(error: io::Error) -> Self {
        match error.kind() {
            io::ErrorKind::OutOfMemory => ReadFault::OutOfMemory,
            kind => ReadFault::Failed(Reason::of_system(kind)),
        }
    }
}

impl From<OpenError> for ReadFault {
    fn from(error: OpenError) -> Self {
        match error {
            OpenError::OutOfMemory => ReadFault::OutOfMemory,
            error => ReadFault::Failed(Reason::of_opening(error)),
        }
    }
}

impl From<CompileError> for ReadFault {
    fn from(error: CompileError) -> Self {
        match error {
            CompileError::OutOfMemory => ReadFault::OutOfMemory,
            error => ReadFault::Failed(Reason::of_statement(error)),
        }
    }
}

impl From<StoreError> for ReadFault {
    fn from(error: StoreError) -> Self {
        match error {
            StoreError::OutOfMemory => ReadFault::OutOfMemory,
            error => ReadFault::Failed(Reason::of_pages(error)),
        }
    }
}

impl From<QueryError> for ReadFault {
    fn from(error: QueryError) -> Self {
        match error {
            QueryError::Store(error) => error.into(),
            error => ReadFault::Failed(Reason::of_run(error)),
        }
    }
}
