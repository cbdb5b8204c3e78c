// Bytes that come one piece after another.
ghost use Rattle.std.specs.Prelude.{◌≡◌, ◌≤◌, [], IfOk, OnErr, IsErrOf};
ghost use Rattle.mix_base.specs.Counts.{HasRisen};
ghost use Rattle.mix_io.specs.Input.{InputView, Gives, Took};
ghost use Rattle.mix_io.specs.declared.input.TakeFault.TheVariants.{OutOfMemory};

use std::alloc::{AllocError, Global};
use thiserror::Error;

/// Why a take was refused.
#[derive(Clone, Copy, Debug, PartialEq, Eq, Error)]
pub enum TakeFault {
    /// The input could not be read, or gave more bytes than can be counted. This comes only where its count of faults rose.
    #[error("the input failed")]
    Failed,
    #[error("memory ran out")]
    OutOfMemory,
}

impl From<AllocError> for TakeFault {
    ghost from_gives = { λ _ e. e ≡ OutOfMemory };

    fn from(_: AllocError) -> Self {
        TakeFault::OutOfMemory
    }
}

/// Where bytes come from, piece by piece.
pub trait Input {
    /// What a state of the input means.
    ghost view: { Self → InputView };

    /// Takes bytes into the first places of `room`, as soon as there are some, and answers how many.
    /// Into room that is not empty, 0 bytes mean that the input has ended.
    /// After an error nothing was taken, and `room` may hold anything.
    fn take(&mut self, alloc: Global, room: &mut [u8]) -> Result<usize, TakeFault>
        ensures gives { IfOk result (λ count. Gives (view self.old) (view self.new) count room.new) }
        ensures err { OnErr result (Took (view self.old) (view self.new) []) }
        ensures count { (view self.old).faults ≤ (view self.new).faults }
        ensures failed { IsErrOf result TakeFault.Failed → HasRisen (view self.old).faults (view self.new).faults };
}
