// Why a path is not read.
ghost use Rattle.std.specs.Prelude.{◌≡◌};
ghost use Rattle.path_expr.specs.declared.fault.PathFault.TheVariants.{OutOfMemory};

use std::alloc::{AllocError, AllocFailed};
use thiserror::Error;

/// Why a path is not read. Places count bytes from the beginning of the text.
#[derive(Clone, Copy, Debug, PartialEq, Eq, Error)]
pub enum PathFault {
    /// The text is not UTF-8 from the place on.
    #[error("not UTF-8 from byte {0} on")]
    NotUtf8(usize),
    /// No path goes on with the byte at the place.
    #[error("no path goes on with byte {0}")]
    Unexpected(usize),
    /// The text ends in a path.
    #[error("the text ends in a path")]
    Ends,
    /// The parenthesis at the place is open inside 100 others.
    #[error("the parenthesis at byte {0} is open inside 100 others")]
    TooDeep(usize),
    /// The path has this many label positions, more than 120.
    #[error("the path has {0} label positions, more than 120")]
    TooMany(usize),
    /// Memory ran out.
    #[error("memory ran out")]
    OutOfMemory,
}

impl From<AllocError> for PathFault {
    ghost from_gives = { λ _ e. e ≡ OutOfMemory };

    fn from(_: AllocError) -> Self {
        PathFault::OutOfMemory
    }
}

impl<T: Drop> From<AllocFailed<T>> for PathFault {
    ghost from_gives = { λ _ e. e ≡ OutOfMemory };

    fn from(_: AllocFailed<T>) -> Self {
        PathFault::OutOfMemory
    }
}
