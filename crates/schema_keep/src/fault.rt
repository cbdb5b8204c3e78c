// Why the tables of a file are not told.
ghost use Rattle.std.specs.Prelude.{◌≡◌};
ghost use Rattle.schema_keep.specs.declared.fault.SchemaFault.TheVariants.{OutOfMemory};

use std::alloc::{AllocError, AllocFailed};
use thiserror::Error;

/// Why the tables of a file are not told.
#[derive(Clone, Copy, Debug, PartialEq, Eq, Error)]
pub enum SchemaFault {
    /// The file is none whose tables can be told, for a reason in words. This comes only where its count of faults rose.
    #[error("{0}")]
    Failed(&'static str),
    #[error("memory ran out")]
    OutOfMemory,
}

impl From<AllocError> for SchemaFault {
    ghost from_gives = { λ _ fault. fault ≡ OutOfMemory };

    fn from(_: AllocError) -> Self {
        SchemaFault::OutOfMemory
    }
}

impl<T: Drop> From<AllocFailed<T>> for SchemaFault {
    ghost from_gives = { λ _ fault. fault ≡ OutOfMemory };

    fn from(_: AllocFailed<T>) -> Self {
        SchemaFault::OutOfMemory
    }
}
