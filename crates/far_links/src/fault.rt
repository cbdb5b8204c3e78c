// Why a far source over a link fails.
ghost use Rattle.std.specs.Prelude.{◌≡◌};
ghost use Rattle.far_links.specs.declared.fault.Refusal.TheVariants.{OutOfMemory};

use lxp_remote::WireFault;
use std::alloc::AllocError;
use thiserror::Error;

/// Why a far source over a link failed.
#[derive(Clone, Copy, Debug, PartialEq, Eq, Error)]
pub enum FarFault {
    /// The other side didn't tell its sources.
    #[error("the sources were not told: {0}")]
    Unopened(WireFault),
    /// A fill got no list that keeps the rules.
    #[error("{0}")]
    Wire(WireFault),
    /// The other side has no source of the number.
    #[error("the other side has no such source")]
    NoSource,
    /// A hole of a list that came has the words of a far source's whole document.
    #[error("a hole came with the words of the whole document")]
    RootNamed,
}

/// Why a fill over a line gave no list.
#[derive(Clone, Copy, Debug, PartialEq, Eq)]
pub enum Refusal {
    /// The far source failed.
    Fault(FarFault),
    /// The far source doesn't know the hole.
    UnknownHole,
    OutOfMemory,
}

impl From<AllocError> for Refusal {
    ghost from_gives = { λ _ refusal. refusal ≡ OutOfMemory };

    fn from(_: AllocError) -> Self {
        Refusal::OutOfMemory
    }
}
