// Standard input.
ghost use Rattle.std.specs.Prelude.{◌≡◌, ◌≤◌, length, None, IfOk};
ghost use Rattle.mix_io.specs.StdInput.{std_input_view};

use crate::{Input, TakeFault};
use std::alloc::Global;
use std::io;
use std::io::{ErrorKind, Read};

/// Standard input, with no buffer between. It tells nothing of what is left.
#[derive(Drop)]
pub struct StdInput {
    rt: HostRuntime,
    taken: u64,
    faults: u64,
}

impl StdInput {
    /// The runtime's standard input.
    pub fn new(rt: HostRuntime) -> StdInput
        ensures { std_input_view result ≡ record { left = None; taken = 0; faults = 0 } }
    {
        StdInput {
            rt,
            taken: 0,
            faults: 0,
        }
    }
}

// The refusal that an error of standard input becomes.
fn take_fault(error: &io::Error) -> TakeFault {
    match error.kind() {
        ErrorKind::OutOfMemory => TakeFault::OutOfMemory,
        _ => TakeFault::Failed,
    }
}

// Reads standard input once.
fn read_once(rt: &HostRuntime, room: &mut [u8]) -> Result<usize, TakeFault>
    ensures { IfOk result (λ count. count ≤ length room.new) }
{
    match rt.stdin().read(room) {
        Ok(count) => Ok(count),
        Err(error) => Err(take_fault(&error)),
    }
}

impl Input for StdInput {
    ghost view = { std_input_view };

    fn take(&mut self, _alloc: Global, room: &mut [u8]) -> Result<usize, TakeFault> {
        let fault = match read_once(&self.rt, room) {
            Ok(count) => match self.taken.checked_add(count as u64) {
                Some(taken) => {
                    self.taken = taken;
                    return Ok(count);
                }
                None => TakeFault::Failed,
            },
            Err(fault) => fault,
        };
        if fault == TakeFault::Failed {
            self.faults = self.faults.saturating_add(1);
        }
        Err(fault)
    }
}
