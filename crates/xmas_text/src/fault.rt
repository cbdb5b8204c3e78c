// Why a rule is not read.
ghost use Rattle.std.specs.Prelude.{◌≡◌};
ghost use Rattle.xmas_text.specs.declared.fault.TextFault.TheVariants.{OutOfMemory};

use std::alloc::{AllocError, AllocFailed};
use thiserror::Error;

/// Why a rule is not read. Places count bytes from the beginning of the text.
#[derive(Clone, Copy, Debug, PartialEq, Eq, Error)]
pub enum TextFault {
    /// The text is not UTF-8 from the place on.
    #[error("not UTF-8 from byte {0} on")]
    NotUtf8(usize),
    /// No rule goes on with the byte at the place.
    #[error("no rule goes on with byte {0}")]
    Unexpected(usize),
    /// The text ends in a rule.
    #[error("the text ends in a rule")]
    EndsEarly,
    /// An element stands inside 20 others.
    #[error("an element stands inside 20 others")]
    TooDeep,
    /// Memory ran out.
    #[error("memory ran out")]
    OutOfMemory,
}

impl From<AllocError> for TextFault {
    ghost from_gives = { λ _ e. e ≡ OutOfMemory };

    fn from(_: AllocError) -> Self {
        TextFault::OutOfMemory
    }
}

impl<T: Drop> From<AllocFailed<T>> for TextFault {
    ghost from_gives = { λ _ e. e ≡ OutOfMemory };

    fn from(_: AllocFailed<T>) -> Self {
        TextFault::OutOfMemory
    }
}
