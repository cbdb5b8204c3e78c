// Why a request over files got no reply.
ghost use Rattle.std.specs.Prelude.{◌≡◌};
ghost use Rattle.file_link.specs.Losses.{breaks};
ghost use Rattle.file_link.specs.declared.loss.Loss.TheVariants.{OutOfMemory};

use std::alloc::AllocError;

/// Why a request over files got no reply.
#[derive(Clone, Copy, Debug, PartialEq, Eq)]
pub enum Loss {
    /// A file could not be opened, or the request could not be written.
    Unsent,
    /// The replies ended, before or inside a reply.
    Ended,
    /// The bytes that came are those of no reply, or more stand behind a whole one.
    Lost,
    /// The reply is longer than 67,108,864 bytes.
    TooLong,
    /// A read failed.
    Failed,
    /// Memory ran out inside a reply.
    OutOfMemory,
}

impl From<AllocError> for Loss {
    ghost from_gives = { λ _ loss. loss ≡ OutOfMemory };

    fn from(_: AllocError) -> Self {
        Loss::OutOfMemory
    }
}

impl Loss {
    /// Whether the stream of replies may stand inside a reply afterwards, or hold bytes of an old one.
    pub fn breaks(self) -> bool
        ensures { result ≡ breaks self }
    {
        match self {
            Loss::Unsent | Loss::Ended => false,
            Loss::Lost | Loss::TooLong | Loss::Failed | Loss::OutOfMemory => true,
        }
    }
}
