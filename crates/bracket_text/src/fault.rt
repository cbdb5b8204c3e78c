// Why bracket text is not read.
ghost use Rattle.std.specs.Prelude.{◌≡◌, Some};
ghost use Rattle.bracket_text.specs.Said.{text_of};
ghost use Rattle.bracket_text.specs.declared.fault.BracketFault.TheVariants.{OutOfMemory};

use std::alloc::{AllocError, AllocFailed};
use std::fmt;

/// Why bracket text is not read. Places count bytes from the beginning of the text.
#[derive(Clone, Copy, Debug, PartialEq, Eq)]
pub enum BracketFault {
    /// The text is not UTF-8 from the place on.
    NotUtf8(usize),
    /// No tree goes on with the byte at the place.
    Unexpected(usize),
    /// The label of a tree at level 201 begins at the place. The root is level 1.
    TooDeep(usize),
    /// The text ends in a tree.
    Ends,
    /// Memory ran out.
    OutOfMemory,
}

impl fmt::Display for BracketFault {
    ghost output = { λ fault. Some (text_of fault) };

    fn fmt<W: fmt::Write>(&self, f: &mut fmt::Formatter<W>) -> fmt::Result {
        match self {
            BracketFault::NotUtf8(at) => write!(f, "not UTF-8 at {at}"),
            BracketFault::Unexpected(at) => write!(f, "unexpected at {at}"),
            BracketFault::TooDeep(at) => write!(f, "too deep at {at}"),
            BracketFault::Ends => write!(f, "ends too early"),
            BracketFault::OutOfMemory => write!(f, "memory ran out"),
        }
    }
}

impl std::error::Error for BracketFault {}

impl From<AllocError> for BracketFault {
    ghost from_gives = { λ _ e. e ≡ OutOfMemory };

    fn from(_: AllocError) -> Self {
        BracketFault::OutOfMemory
    }
}

impl<T: Drop> From<AllocFailed<T>> for BracketFault {
    ghost from_gives = { λ _ e. e ≡ OutOfMemory };

    fn from(_: AllocFailed<T>) -> Self {
        BracketFault::OutOfMemory
    }
}
