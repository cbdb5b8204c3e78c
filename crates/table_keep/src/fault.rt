// Why a page is not given.
ghost use Rattle.std.specs.Prelude.{◌≡◌};
ghost use Rattle.table_keep.specs.declared.fault.PageFault.TheVariants.{OutOfMemory};

use std::alloc::{AllocError, AllocFailed};
use thiserror::Error;

/// Why a page is not given.
#[derive(Clone, Copy, Debug, PartialEq, Eq, Error)]
pub enum PageFault {
    /// The page could not be read. This comes only where the count of faults of the declared table rose.
    #[error("the page could not be read")]
    Failed,
    #[error("memory ran out")]
    OutOfMemory,
}

impl From<AllocError> for PageFault {
    ghost from_gives = { λ _ fault. fault ≡ OutOfMemory };

    fn from(_: AllocError) -> Self {
        PageFault::OutOfMemory
    }
}

impl<T: Drop> From<AllocFailed<T>> for PageFault {
    ghost from_gives = { λ _ fault. fault ≡ OutOfMemory };

    fn from(_: AllocFailed<T>) -> Self {
        PageFault::OutOfMemory
    }
}
