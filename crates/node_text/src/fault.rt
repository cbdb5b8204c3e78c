// Why the text of an identifier is not read.
ghost use Rattle.std.specs.Prelude.{◌≡◌};
ghost use Rattle.node_text.specs.declared.fault.NodeFault.TheVariants.{OutOfMemory};

use std::alloc::{AllocError, AllocFailed};
use thiserror::Error;

/// Why the text of an identifier is not read. Places count bytes from the beginning of the text.
#[derive(Clone, Copy, Debug, PartialEq, Eq, Error)]
pub enum NodeFault {
    /// No identifier goes on with the byte at the place.
    #[error("no identifier goes on with byte {0}")]
    Unexpected(usize),
    /// The text ends in an identifier.
    #[error("the text ends in an identifier")]
    Ends,
    /// Memory ran out.
    #[error("memory ran out")]
    OutOfMemory,
}

impl From<AllocError> for NodeFault {
    ghost from_gives = { λ _ e. e ≡ OutOfMemory };

    fn from(_: AllocError) -> Self {
        NodeFault::OutOfMemory
    }
}

impl<T: Drop> From<AllocFailed<T>> for NodeFault {
    ghost from_gives = { λ _ e. e ≡ OutOfMemory };

    fn from(_: AllocFailed<T>) -> Self {
        NodeFault::OutOfMemory
    }
}
