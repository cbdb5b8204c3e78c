// Standard output as a sink.
ghost use Rattle.std.specs.Prelude.{◌≡◌, ◌<◌, ◌≤◌, ℕ, length, take, None, IfOk, OnOk, OnErr};
ghost use Rattle.std.specs.Io.KnownBytes.{Appends, Keeps};
ghost use Rattle.mix_io.specs.System.{std_sink_view};

use crate::{Sink, SinkFault};
use std::alloc::Global;
use std::io;
use std::io::{ErrorKind, Write};

/// Standard output, with no buffer between. It tells nothing of what was written.
#[derive(Drop)]
pub struct StdSink {
    rt: HostRuntime,
    faults: u64,
}

impl StdSink {
    /// The runtime's standard output.
    pub fn new(rt: HostRuntime) -> StdSink
        ensures { std_sink_view result ≡ record { written = None; faults = 0 } }
    {
        StdSink { rt, faults: 0 }
    }
}

// Writes to standard output once: at least a byte of a piece that is not empty.
fn write_once<W: Write>(out: &mut W, piece: &[u8]) -> Result<usize, SinkFault>
    ensures some { IfOk result (λ count. (0 < count) × (count ≤ length piece.now)) }
    ensures ok { IfOk result (λ count. Appends (W.contents out.old) (W.contents out.new) (take count piece.now)) }
    ensures err { OnErr result (Keeps (W.contents out.old) (W.contents out.new)) }
{
    match out.write(piece) {
        Ok(0) => Err(SinkFault::Failed),
        Ok(count) => Ok(count),
        Err(error) => Err(write_fault(&error)),
    }
}

// Writes a piece to standard output, by as many writes as it takes. Where one fails, a prefix of the piece was written.
pub fn write_whole<W: Write>(out: &mut W, piece: &[u8]) -> Result<(), SinkFault>
    ensures ok { OnOk result (Appends (W.contents out.old) (W.contents out.new) piece.now) }
    ensures err { OnErr result ((count : ℕ) × Appends (W.contents out.old) (W.contents out.new) (take count piece.now)) }
{
    let mut done = 0;
    while done < piece.len() {
        done += write_once(out, &piece[done..])?;
    }
    Ok(())
}

// The refusal that an error of standard output becomes.
fn write_fault(error: &io::Error) -> SinkFault {
    match error.kind() {
        ErrorKind::OutOfMemory => SinkFault::OutOfMemory,
        _ => SinkFault::Failed,
    }
}

impl Sink for StdSink {
    ghost view = { std_sink_view };

    fn write(&mut self, _alloc: Global, piece: &[u8]) -> Result<(), SinkFault> {
        let answer = write_whole(&mut io::writer(&self.rt), piece);
        if answer == Err(SinkFault::Failed) {
            self.faults = self.faults.saturating_add(1);
        }
        answer
    }
}
