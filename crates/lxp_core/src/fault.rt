// Why a fill is refused, and why a walk over sources stops.
ghost use Rattle.std.specs.Prelude.{◌≡◌};
ghost use Rattle.lxp_core.specs.declared.fault.SourceFault.TheVariants.{OutOfMemory};
ghost use Rattle.lxp_core.specs.declared.fault.WalkFault.TheVariants.{OutOfMemory as WalkOutOfMemory};

use std::alloc::{AllocError, AllocFailed};
use thiserror::Error;

/// Why a fill is refused.
#[derive(Clone, Copy, Debug, PartialEq, Eq, Error)]
pub enum SourceFault {
    /// The source failed. This comes only where its count of faults rose.
    #[error("the source failed")]
    Failed,
    /// The source doesn't know the hole.
    #[error("the source doesn't know the hole")]
    UnknownHole,
    #[error("memory ran out")]
    OutOfMemory,
}

impl From<AllocError> for SourceFault {
    ghost from_gives = { λ _ fault. fault ≡ OutOfMemory };

    fn from(_: AllocError) -> Self {
        SourceFault::OutOfMemory
    }
}

impl<T: Drop> From<AllocFailed<T>> for SourceFault {
    ghost from_gives = { λ _ fault. fault ≡ OutOfMemory };

    fn from(_: AllocFailed<T>) -> Self {
        SourceFault::OutOfMemory
    }
}

/// A call that walks over sources didn't come to its end. What was handed out before stands for what it stood for, and
/// the call may be tried again.
#[derive(Clone, Copy, Debug, PartialEq, Eq, Error)]
pub enum WalkFault {
    /// The source of this number failed. This comes only where its count of faults rose.
    #[error("source {0} failed")]
    Failed(u32),
    #[error("memory ran out")]
    OutOfMemory,
}

impl From<AllocError> for WalkFault {
    ghost from_gives = { λ _ fault. fault ≡ WalkOutOfMemory };

    fn from(_: AllocError) -> Self {
        WalkFault::OutOfMemory
    }
}

impl<T: Drop> From<AllocFailed<T>> for WalkFault {
    ghost from_gives = { λ _ fault. fault ≡ WalkOutOfMemory };

    fn from(_: AllocFailed<T>) -> Self {
        WalkFault::OutOfMemory
    }
}
