// Why no value is read from the tokens of a text.
ghost use Rattle.std.specs.Prelude.{◌≡◌};
ghost use Rattle.json_text.specs.declared.stop.Stop.TheVariants.{NotJson, OutOfMemory};

use json::Invalid;
use std::alloc::AllocError;

/// Why no value is read from the tokens of a text.
#[derive(Clone, Copy)]
pub enum Stop {
    /// The tokens begin with no value.
    NotJson,
    /// Memory ran out.
    OutOfMemory,
}

impl From<Invalid> for Stop {
    ghost from_gives = { λ _ e. e ≡ NotJson };

    fn from(_: Invalid) -> Self {
        Stop::NotJson
    }
}

impl From<AllocError> for Stop {
    ghost from_gives = { λ _ e. e ≡ OutOfMemory };

    fn from(_: AllocError) -> Self {
        Stop::OutOfMemory
    }
}
