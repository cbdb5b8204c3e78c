// A sink in memory, which fails at the writes that a list names.
ghost use Rattle.std.specs.Prelude.{◌≡◌, ◌++◌, ◌/◌, [], length, take, Some, OnOk, OnErr};
ghost use Rattle.mix_io.specs.Memory.{failing_writes, mem_sink_view, next_fails};

use crate::{Sink, SinkFault};
use std::alloc::{AllocError, Global};

/// Bytes in memory. A write that a list names, counted from 1, takes the first half of its piece and fails.
#[derive(Debug, Drop)]
pub struct MemSink {
    bytes: Vec<u8>,
    failing: Vec<u64>,
    writes: u64,
    faults: u64,
}

impl MemSink {
    /// A sink in memory that fails at the writes whose numbers `failing` names, counted from 1.
    pub fn new(alloc: Global, failing: Vec<u64>) -> MemSink
        ensures view { mem_sink_view result ≡ record { written = Some []; faults = 0 } }
        ensures failing { failing_writes result ≡ failing.items }
    {
        MemSink {
            bytes: Vec::new(alloc),
            failing,
            writes: 0,
            faults: 0,
        }
    }

    // Whether the next write is to fail.
    fn next_fails(&self) -> bool
        ensures { result ≡ next_fails self.now }
    {
        self.failing.contains(&self.writes.saturating_add(1))
    }

    /// The bytes that were written.
    pub fn bytes(&self) -> &[u8]
        ensures { (mem_sink_view self.now).written ≡ Some result.now }
    {
        &self.bytes
    }
}

// Appends the first half of a piece, rounded down.
fn append_half(bytes: &mut Vec<u8>, piece: &[u8]) -> Result<(), AllocError>
    ensures ok { OnOk result (bytes.new.items ≡ bytes.old.items ++ take (length piece.now / 2) piece.now) }
    ensures err { OnErr result (bytes.new.items ≡ bytes.old.items) }
{
    bytes.extend_from_slice(&piece[..piece.len() / 2])
}

impl Sink for MemSink {
    ghost use Rattle.std.specs.Prelude.{◌≡◌, ◌≤◌, ◌/◌, true, false, length, take, OnOk, OnErr, IsErrOf};
    ghost use Rattle.mix_base.specs.Counts.{HasRisen};
    ghost use Rattle.mix_io.specs.Contents.{Appends, AppendsPrefix};
    ghost use Rattle.mix_io.specs.Memory.{mem_sink_view, failing_writes, writes_of, next_write, next_fails};

    ghost view = { mem_sink_view };

    fn write(&mut self, _alloc: Global, piece: &[u8]) -> Result<(), SinkFault>
        ensures ok { OnOk result (Appends (mem_sink_view self.old).written (mem_sink_view self.new).written piece.now) }
        ensures err { OnErr result (AppendsPrefix (mem_sink_view self.old).written (mem_sink_view self.new).written piece.now) }
        ensures count { (mem_sink_view self.old).faults ≤ (mem_sink_view self.new).faults }
        ensures failed { IsErrOf result SinkFault.Failed → HasRisen (mem_sink_view self.old).faults (mem_sink_view self.new).faults }
        // Which writes fail: those that the list names, and a failing one takes the first half.
        ensures named { IsErrOf result SinkFault.Failed → next_fails self.old ≡ true }
        ensures fails { OnOk result (next_fails self.old ≡ false) }
        ensures half { IsErrOf result SinkFault.Failed
            → Appends (mem_sink_view self.old).written (mem_sink_view self.new).written (take (length piece.now / 2) piece.now) }
        ensures steady { next_fails self.old ≡ false → (mem_sink_view self.new).faults ≡ (mem_sink_view self.old).faults }
        ensures counted { writes_of self.new ≡ next_write self.old }
        ensures list { failing_writes self.new ≡ failing_writes self.old }
    {
        let fails = self.next_fails();
        self.writes = self.writes.saturating_add(1);
        if fails {
            append_half(&mut self.bytes, piece)?;
            self.faults = self.faults.saturating_add(1);
            return Err(SinkFault::Failed);
        }
        self.bytes.extend_from_slice(piece)?;
        Ok(())
    }
}
