// An input in memory, which fails at the takes that a list names.
ghost use Rattle.std.specs.Prelude.{◌≡◌, ◌≤◌, ◌<◌, length, Some};

use crate::{Input, TakeFault};
use std::alloc::Global;

/// Bytes in memory, given in pieces. A take that a list names, counted from 1, gives nothing and fails.
#[derive(Debug, Drop)]
pub struct MemInput {
    bytes: Vec<u8>,
    // How many bytes were taken.
    from: usize,
    // The most bytes that one take gives.
    most: usize,
    failing: Vec<u64>,
    takes: u64,
    faults: u64,
    ghost inside: { from ≤ length bytes.items },
    ghost some: { 0 < most },
}

impl MemInput {
    ghost use Rattle.mix_io.specs.MemInput.{failing_takes, mem_input_view, next_take_fails};

    /// An input of these bytes, which gives at most so many of them at once, and fails at the takes of these numbers, counted from 1.
    pub fn new(bytes: Vec<u8>, most: usize, failing: Vec<u64>) -> MemInput
        requires { 0 < most }
        ensures view { mem_input_view result ≡ record { left = Some bytes.items; taken = 0; faults = 0 } }
        ensures failing { failing_takes result ≡ failing.items }
    {
        MemInput {
            bytes,
            from: 0,
            most,
            failing,
            takes: 0,
            faults: 0,
        }
    }

    // Whether the next take is to fail.
    fn next_take_fails(&self) -> bool
        ensures { result ≡ next_take_fails self.now }
    {
        self.failing.contains(&self.takes.saturating_add(1))
    }
}

impl Input for MemInput {
    ghost use Rattle.std.specs.Prelude.{◌≡◌, ◌≤◌, true, false, [], IfOk, OnOk, OnErr, IsErrOf};
    ghost use Rattle.mix_base.specs.Counts.{HasRisen};
    ghost use Rattle.mix_io.specs.Input.{Gives, Took};
    ghost use Rattle.mix_io.specs.MemInput.{failing_takes, mem_input_view, next_take, next_take_fails, takes_of};

    ghost view = { mem_input_view };

    fn take(&mut self, _alloc: Global, room: &mut [u8]) -> Result<usize, TakeFault>
        ensures gives { IfOk result (λ count. Gives (mem_input_view self.old) (mem_input_view self.new) count room.new) }
        ensures err { OnErr result (Took (mem_input_view self.old) (mem_input_view self.new) []) }
        ensures count { (mem_input_view self.old).faults ≤ (mem_input_view self.new).faults }
        ensures failed { IsErrOf result TakeFault.Failed → HasRisen (mem_input_view self.old).faults (mem_input_view self.new).faults }
        // Which takes fail: those that the list names.
        ensures named { OnErr result (next_take_fails self.old ≡ true) }
        ensures fails { OnOk result (next_take_fails self.old ≡ false) }
        ensures steady { next_take_fails self.old ≡ false → (mem_input_view self.new).faults ≡ (mem_input_view self.old).faults }
        ensures counted { takes_of self.new ≡ next_take self.old }
        ensures list { failing_takes self.new ≡ failing_takes self.old }
    {
        let fails = self.next_take_fails();
        self.takes = self.takes.saturating_add(1);
        if fails {
            self.faults = self.faults.saturating_add(1);
            return Err(TakeFault::Failed);
        }
        let rest = &self.bytes[self.from..];
        let count = rest.len().min(room.len()).min(self.most);
        room[..count].copy_from_slice(&rest[..count]);
        self.from += count;
        Ok(count)
    }
}
