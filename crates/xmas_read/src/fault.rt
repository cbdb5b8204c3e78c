// Why a rule is refused.
ghost use Rattle.std.specs.Prelude.{◌≡◌};
ghost use Rattle.xmas_read.specs.declared.fault.XmasFault.TheVariants.{OutOfMemory};
ghost use Rattle.xmas_read.specs.Faults.{fault_of_text};

use std::alloc::{AllocError, AllocFailed};
use thiserror::Error;
use xmas_text::TextFault;

/// What a rule has too much of (docs/FORMATS.md, "Limits").
#[derive(Clone, Copy, Debug, PartialEq, Eq, Error)]
pub enum Large {
    /// An element stands inside 20 others.
    #[error("an element stands inside 20 others")]
    Depth,
    /// The template has more than 1,000 items.
    #[error("the template has more than 1,000 items")]
    Items,
    /// More than 60 different variables stand in the text.
    #[error("more than 60 variables")]
    Variables,
    /// There are more than 100 conditions.
    #[error("more than 100 conditions")]
    Conditions,
    /// A path has a parenthesis open inside 100 others.
    #[error("a path has a parenthesis open inside 100 others")]
    Nesting,
    /// A path has more than 120 label positions.
    #[error("a path has more than 120 label positions")]
    Positions,
}

/// Why a rule is refused. Places count bytes from the beginning of the text.
#[derive(Clone, Copy, Debug, PartialEq, Eq, Error)]
pub enum XmasFault {
    /// The text is not UTF-8 from the place on.
    #[error("not UTF-8 from byte {0} on")]
    NotUtf8(usize),
    /// No rule goes on with the byte at the place.
    #[error("no rule goes on with byte {0}")]
    Unexpected(usize),
    /// The text ends in a rule.
    #[error("the text ends in a rule")]
    EndsEarly,
    /// The rule is too large.
    #[error("the rule is too large: {0}")]
    TooLarge(Large),
    /// The closing tag at the place has another name than its opening tag.
    #[error("the closing tag at byte {0} has another name than its opening tag")]
    TagDiffers(usize),
    /// The catalog has no source of the name at the place.
    #[error("the catalog has no source of the name at byte {0}")]
    UnknownSource(usize),
    /// The variable at the place is bound already.
    #[error("the variable at byte {0} is bound already")]
    BoundTwice(usize),
    /// No condition binds the variable at the place, or none before it binds what it starts from.
    #[error("no condition binds the variable at byte {0} in time")]
    Unbound(usize),
    /// The outer element has keys, in the group label at the place.
    #[error("the outer element has keys, at byte {0}")]
    OuterGroup(usize),
    /// The item at the place shows what isn't in force there.
    #[error("the item at byte {0} shows what isn't in force there")]
    Loose(usize),
    /// Memory ran out.
    #[error("memory ran out")]
    OutOfMemory,
}

impl From<AllocError> for XmasFault {
    ghost from_gives = { λ _ e. e ≡ OutOfMemory };

    fn from(_: AllocError) -> Self {
        XmasFault::OutOfMemory
    }
}

impl<T: Drop> From<AllocFailed<T>> for XmasFault {
    ghost from_gives = { λ _ e. e ≡ OutOfMemory };

    fn from(_: AllocFailed<T>) -> Self {
        XmasFault::OutOfMemory
    }
}

/// The fault of a rule's text as that of a rule.
pub fn fault_of(fault: TextFault) -> XmasFault
    ensures { result ≡ fault_of_text fault }
{
    match fault {
        TextFault::NotUtf8(at) => XmasFault::NotUtf8(at),
        TextFault::Unexpected(at) => XmasFault::Unexpected(at),
        TextFault::EndsEarly => XmasFault::EndsEarly,
        TextFault::TooDeep => XmasFault::TooLarge(Large::Depth),
        TextFault::OutOfMemory => XmasFault::OutOfMemory,
    }
}
