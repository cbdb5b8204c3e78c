// Lines that are written, each by one write, and those of refusals.
ghost use Rattle.std.specs.Prelude.{◌≡◌, ◌<◌, ◌≤◌, length, OnOk, IfErr, string_bytes};
ghost use Rattle.mix_io.specs.Views.{SinkView};
ghost use Rattle.mix_io.specs.Contents.{Appends};
ghost use Rattle.mix_run.specs.Ends.{Ends};
ghost use Rattle.mix_run.specs.Stops.{IsCut};

use mix_io::{Sink, SinkFault};
use mix_place::{Refusal, Stop};
use std::alloc::Global;

/// Writes a line, by one write.
pub fn write_line<K: Sink>(alloc: Global, line: &[u8], out: &mut K) -> Result<(), Stop>
    ensures ok { OnOk result (Appends (K.view out.old).written (K.view out.new).written line.now) }
    ensures err { IfErr result (IsCut (K.view out.old) (K.view out.new) line.now) }
    ensures count { (K.view out.old).faults ≤ (K.view out.new).faults }
{
    out.write(alloc, line)?;
    Ok(())
}

// The index after the first line of a text and its LF.
fn line_end(text: &[u8]) -> usize
    requires { 0 < length text.now }
    ensures some { 0 < result }
    ensures inside { result ≤ length text.now }
{
    match text.iter().position(|byte| *byte == b'\n') {
        Some(at) => at + 1,
        None => text.len(),
    }
}

/// Writes a text, each of its lines by one write.
pub fn write_lines<K: Sink>(alloc: Global, text: &[u8], out: &mut K) -> Result<(), Stop>
    ensures ok { OnOk result (Appends (K.view out.old).written (K.view out.new).written text.now) }
    ensures err { IfErr result (IsCut (K.view out.old) (K.view out.new) text.now) }
    ensures count { (K.view out.old).faults ≤ (K.view out.new).faults }
{
    let mut rest = text;
    while !rest.is_empty() {
        let (line, later) = rest.split_at(line_end(rest));
        write_line(alloc, line, out)?;
        rest = later;
    }
    Ok(())
}

/// Writes the line of a refusal, and answers its status: 5 where the sink failed, and 6 where memory ran out.
pub fn refuse<K: Sink>(alloc: Global, refusal: Refusal, out: &mut K) -> u8
    ensures ends { Ends (λ status lines. (status ≡ refusal.status) × (lines ≡ string_bytes refusal.line)) (K.view out.old) (K.view out.new) result }
    ensures count { (K.view out.old).faults ≤ (K.view out.new).faults }
{
    match out.write(alloc, refusal.line.as_bytes()) {
        Ok(()) => refusal.status,
        Err(SinkFault::Failed) => 5,
        Err(SinkFault::OutOfMemory) => 6,
    }
}
