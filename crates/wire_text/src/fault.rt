// Why a reply is not read.
ghost use Rattle.std.specs.Prelude.{◌≡◌};
ghost use Rattle.wire_text.specs.declared.fault.ReplyFault.TheVariants.{OutOfMemory};

use std::alloc::{AllocError, AllocFailed};
use thiserror::Error;

/// Why a text is no reply that is read. Places count bytes from the beginning of the text.
#[derive(Clone, Copy, Debug, PartialEq, Eq, Error)]
pub enum ReplyFault {
    /// No reply goes on with the byte at the place.
    #[error("no reply goes on with byte {0}")]
    Unexpected(usize),
    /// The text ends in a reply.
    #[error("the text ends in a reply")]
    Ends,
    /// A tree at level 201 begins at the place.
    #[error("a tree at level 201 begins at byte {0}")]
    TooDeep(usize),
    /// Memory ran out.
    #[error("memory ran out")]
    OutOfMemory,
}

impl From<AllocError> for ReplyFault {
    ghost from_gives = { λ _ fault. fault ≡ OutOfMemory };

    fn from(_: AllocError) -> Self {
        ReplyFault::OutOfMemory
    }
}

impl<T: Drop> From<AllocFailed<T>> for ReplyFault {
    ghost from_gives = { λ _ fault. fault ≡ OutOfMemory };

    fn from(_: AllocFailed<T>) -> Self {
        ReplyFault::OutOfMemory
    }
}
