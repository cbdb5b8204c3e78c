// The lines of an input, read one after another.
ghost use Rattle.std.specs.Prelude.{◌≡◌, ◌≤◌, [], drop, length, take, false, None, IfOk, IfErr, IsErrOf};
ghost use Rattle.mix_base.specs.Counts.{HasRisen};
ghost use Rattle.mix_io.specs.Input.{InputView};
ghost use Rattle.mix_lines.specs.Heard.{heard, next_asks};
ghost use Rattle.mix_lines.specs.Reading.{IsLine, IsPart, IsReaderOf, Moved, Reads, TookSome};

use crate::page::Page;
use mix_io::{Input, TakeFault};
use mix_script::{Forms, LineRead, read_line};
use mix_words::lines::cut_lines;
use std::alloc::{AllocError, Global};

/// The most bytes that a line may have.
pub const LINE_LIMIT: usize = 1_048_576;

// The most bytes that are kept of a line with its end: one that has so many and no LF among them is too long.
const KEPT: usize = LINE_LIMIT + 2;

/// What was taken of an input and not yet read, and whether the input has ended.
#[derive(Drop)]
pub struct LineReader {
    page: Page,
    ended: bool,
}

// How many bytes stand up to the first LF and with it, or in all where there is none; and whether there is one.
fn line_part(bytes: &[u8]) -> (usize, bool)
    ensures inside { result.0 ≤ length bytes.now }
    ensures part { IsPart (take result.0 bytes.now) (drop result.0 bytes.now) result.1 }
{
    for (at, byte) in bytes.iter().enumerate() {
        if *byte == b'\n' {
            return (at + 1, true);
        }
    }
    (bytes.len(), false)
}

// Moves the bytes of a page up to its first LF, and with it, after those of a line, of which no more than `KEPT` are kept. Tells
// whether there was an LF.
fn move_line(page: &mut Page, line: &mut Vec<u8>) -> Result<bool, AllocError>
    requires { length line.old.items ≤ 1048578 }
    ensures { IfOk result (Moved page.old page.new line.old.items line.new.items) }
{
    let bytes = page.bytes();
    let (count, whole) = line_part(bytes);
    let kept = count.min(KEPT - line.len());
    line.extend_from_slice(&bytes[..kept])?;
    page.drop_prefix(count);
    Ok(whole)
}

// What a line of an input with its end comes to; `None` where it has no bytes, so that there is no line.
fn read_whole_line(alloc: Global, line: &[u8]) -> Result<Option<LineRead>, AllocError>
    requires { IsLine line.now }
    ensures asks { IfOk result (λ read. heard line.now ≡ next_asks read) }
    ensures none { IfOk result (λ read. read ≡ None → line.now ≡ []) }
    ensures empty { IfOk result (λ read. line.now ≡ [] → read ≡ None) }
{
    let lines = cut_lines(alloc, line)?;
    match lines.as_slice() {
        [line] if line.len() <= LINE_LIMIT => Ok(Some(read_line(alloc, line, Forms::WithIds)?)),
        [_] => Ok(Some(LineRead::NoForm)),
        _ => Ok(None),
    }
}

impl LineReader {
    /// A reader of an input of which it has taken nothing.
    pub fn new(alloc: Global) -> Result<LineReader, AllocError>
        ensures page { IfOk result (λ r. r.page ≡ []) }
        ensures ended { IfOk result (λ r. r.ended ≡ false) }
    {
        Ok(LineReader {
            page: Page::new(alloc)?,
            ended: false,
        })
    }

    /// What the next line of the input comes to; `None` where the input has ended. No more is taken than the line needs. A line of more
    /// than `LINE_LIMIT` bytes is of no form.
    pub fn next<I: Input>(
        &mut self,
        alloc: Global,
        input: &mut I,
    ) -> Result<Option<LineRead>, TakeFault>
        requires { IsReaderOf (I.view input.old) self.old }
        ensures reads { IfOk result (Reads (I.view input.old) (I.view input.new) self.old self.new) }
        ensures err { IfErr result (TookSome (I.view input.old) (I.view input.new) self.old) }
        ensures count { (I.view input.old).faults ≤ (I.view input.new).faults }
        ensures failed { IsErrOf result TakeFault.Failed → HasRisen (I.view input.old).faults (I.view input.new).faults }
    {
        let mut line = Vec::new(alloc);
        'pages: while !self.ended {
            if move_line(&mut self.page, &mut line)? {
                return Ok(read_whole_line(alloc, &line)?);
            }
            self.page.refill(alloc, input)?;
            self.ended = self.page.bytes().is_empty();
        }
        Ok(read_whole_line(alloc, &line)?)
    }
}
