// Why a JSON text is not read.
ghost use Rattle.std.specs.Prelude.{◌≡◌, Some};
ghost use Rattle.json_text.specs.Said.{text_of};
ghost use Rattle.json_text.specs.declared.fault.JsonFault.TheVariants.{OutOfMemory};

use std::alloc::AllocError;
use std::fmt;

/// Why a JSON text is not read. Places count bytes from the beginning of the text.
#[derive(Clone, Copy, Debug, PartialEq, Eq)]
pub enum JsonFault {
    /// The text is not UTF-8 from the place on.
    NotUtf8(usize),
    /// The text is no JSON value whose arrays and objects nest at most 128 deep. The reader stopped at the place.
    NotJson(usize),
    /// Memory ran out.
    OutOfMemory,
}

impl fmt::Display for JsonFault {
    ghost output = { λ fault. Some (text_of fault) };

    fn fmt<W: fmt::Write>(&self, f: &mut fmt::Formatter<W>) -> fmt::Result {
        match self {
            JsonFault::NotUtf8(at) => write!(f, "not UTF-8 at {at}"),
            JsonFault::NotJson(at) => write!(f, "not JSON at {at}"),
            JsonFault::OutOfMemory => write!(f, "memory ran out"),
        }
    }
}

impl std::error::Error for JsonFault {}

impl From<AllocError> for JsonFault {
    ghost from_gives = { λ _ e. e ≡ OutOfMemory };

    fn from(_: AllocError) -> Self {
        JsonFault::OutOfMemory
    }
}
