// Where bytes are written.
ghost use Rattle.std.specs.Prelude.{◌≡◌, ◌≤◌, OnOk, OnErr, IsErrOf};
ghost use Rattle.mix_base.specs.Counts.{HasRisen};
ghost use Rattle.mix_io.specs.Contents.{Appends, AppendsPrefix};
ghost use Rattle.mix_io.specs.Views.{SinkView};
ghost use Rattle.mix_io.specs.declared.sink.SinkFault.TheVariants.{OutOfMemory};

use std::alloc::{AllocError, Global};
use thiserror::Error;

/// Why a write was refused.
#[derive(Clone, Copy, Debug, PartialEq, Eq, Error)]
pub enum SinkFault {
    /// The sink took no more. This comes only where its count of faults rose.
    #[error("the write failed")]
    Failed,
    #[error("memory ran out")]
    OutOfMemory,
}

impl From<AllocError> for SinkFault {
    ghost from_gives = { λ _ e. e ≡ OutOfMemory };

    fn from(_: AllocError) -> Self {
        SinkFault::OutOfMemory
    }
}

/// Where bytes are written, each piece after those before.
pub trait Sink {
    /// What a state of the sink means.
    ghost view: { Self → SinkView };

    /// Writes a piece. After an error a prefix of it was written, perhaps the empty one.
    fn write(&mut self, alloc: Global, piece: &[u8]) -> Result<(), SinkFault>
        ensures ok { OnOk result (Appends (view self.old).written (view self.new).written piece.now) }
        ensures err { OnErr result (AppendsPrefix (view self.old).written (view self.new).written piece.now) }
        ensures count { (view self.old).faults ≤ (view self.new).faults }
        ensures failed { IsErrOf result SinkFault.Failed → HasRisen (view self.old).faults (view self.new).faults };
}
