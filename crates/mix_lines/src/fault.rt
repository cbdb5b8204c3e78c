// Why lines were cut short.
ghost use Rattle.std.specs.Prelude.{◌≡◌};
ghost use Rattle.mix_lines.specs.declared.fault.LinesFault.TheVariants.{OutOfMemory};

use mix_io::{SinkFault, TakeFault};
use std::alloc::AllocError;
use thiserror::Error;

/// Why lines were cut short.
#[derive(Clone, Copy, Debug, PartialEq, Eq, Error)]
pub enum LinesFault {
    /// The input failed. This comes only where its count of faults rose.
    #[error("the input failed")]
    InputFailed,
    /// The sink failed. This comes only where its count of faults rose.
    #[error("the sink failed")]
    SinkFailed,
    #[error("memory ran out")]
    OutOfMemory,
}

impl From<AllocError> for LinesFault {
    ghost from_gives = { λ _ fault. fault ≡ OutOfMemory };

    fn from(_: AllocError) -> Self {
        LinesFault::OutOfMemory
    }
}

impl From<SinkFault> for LinesFault {
    ghost use Rattle.mix_lines.specs.Cuts.{of_sink};

    ghost from_gives = { λ fault e. e ≡ of_sink fault };

    fn from(fault: SinkFault) -> Self {
        match fault {
            SinkFault::Failed => LinesFault::SinkFailed,
            SinkFault::OutOfMemory => LinesFault::OutOfMemory,
        }
    }
}

impl From<TakeFault> for LinesFault {
    ghost use Rattle.mix_lines.specs.Cuts.{of_take};

    ghost from_gives = { λ fault e. e ≡ of_take fault };

    fn from(fault: TakeFault) -> Self {
        match fault {
            TakeFault::Failed => LinesFault::InputFailed,
            TakeFault::OutOfMemory => LinesFault::OutOfMemory,
        }
    }
}
