// Why serving was cut short.
ghost use Rattle.std.specs.Prelude.{◌≡◌};
ghost use Rattle.mix_serve.specs.declared.fault.ServeFault.TheVariants.{OutOfMemory};

use mix_io::{SinkFault, TakeFault};
use std::alloc::AllocError;
use thiserror::Error;

/// Why serving was cut short.
#[derive(Clone, Copy, Debug, PartialEq, Eq, Error)]
pub enum ServeFault {
    /// The input failed. This comes only where its count of faults rose.
    #[error("the input failed")]
    InputFailed,
    /// The sink failed. This comes only where its count of faults rose.
    #[error("the sink failed")]
    SinkFailed,
    #[error("memory ran out")]
    OutOfMemory,
}

impl From<AllocError> for ServeFault {
    ghost from_gives = { λ _ fault. fault ≡ OutOfMemory };

    fn from(_: AllocError) -> Self {
        ServeFault::OutOfMemory
    }
}

impl From<TakeFault> for ServeFault {
    ghost use Rattle.mix_serve.specs.Faults.{of_take};

    ghost from_gives = { λ fault e. e ≡ of_take fault };

    fn from(fault: TakeFault) -> Self {
        match fault {
            TakeFault::Failed => ServeFault::InputFailed,
            TakeFault::OutOfMemory => ServeFault::OutOfMemory,
        }
    }
}

impl From<SinkFault> for ServeFault {
    ghost use Rattle.mix_serve.specs.Faults.{of_sink};

    ghost from_gives = { λ fault e. e ≡ of_sink fault };

    fn from(fault: SinkFault) -> Self {
        match fault {
            SinkFault::Failed => ServeFault::SinkFailed,
            SinkFault::OutOfMemory => ServeFault::OutOfMemory,
        }
    }
}
