// Why a catalog is not read.
ghost use Rattle.std.specs.Prelude.{◌≡◌};
ghost use Rattle.mix_catalog.specs.declared.fault.CatalogFault.TheVariants.{OutOfMemory};

use std::alloc::{AllocError, AllocFailed};
use thiserror::Error;

/// Why a catalog is not read. Lines count from 1, those that are passed over too.
#[derive(Clone, Copy, Debug, PartialEq, Eq, Error)]
pub enum CatalogFault {
    /// The line fits no form.
    #[error("no form fits line {0}")]
    Line(usize),
    /// The line's chunk is not from 1 to 1,000.
    #[error("the chunk in line {0} is not from 1 to 1000")]
    Chunk(usize),
    /// The line has more than 200 columns.
    #[error("line {0} has more than 200 columns")]
    Columns(usize),
    /// A column stands twice in the line.
    #[error("a column stands twice in line {0}")]
    ColumnTwice(usize),
    /// A source before the line has its name.
    #[error("a source before line {0} has its name")]
    NameTwice(usize),
    /// There are 32 sources before the line.
    #[error("32 sources stand before line {0}")]
    TooMany(usize),
    /// Memory ran out.
    #[error("memory ran out")]
    OutOfMemory,
}

impl From<AllocError> for CatalogFault {
    ghost from_gives = { λ _ e. e ≡ OutOfMemory };

    fn from(_: AllocError) -> Self {
        CatalogFault::OutOfMemory
    }
}

impl<T: Drop> From<AllocFailed<T>> for CatalogFault {
    ghost from_gives = { λ _ e. e ≡ OutOfMemory };

    fn from(_: AllocFailed<T>) -> Self {
        CatalogFault::OutOfMemory
    }
}
