// The first word of a line with which no line of a form goes on.
ghost use Rattle.std.specs.Prelude.{◌≡◌, ◌≤◌, IfOk, length};
ghost use Rattle.catalog_continuations.specs.GoesOn.{IsOneLine};
ghost use Rattle.catalog_continuations.specs.Misfit.{IsMisfit, IsWordEnd};

use crate::going_on::goes_on;
use mix_words::places::word_place;
use mix_words::words::is_blank_byte;
use std::alloc::{AllocError, Global};

// The most words of a line that are looked at.
const WORDS: usize = 32;

// Where a word ends that begins at a place.
fn word_end(line: &[u8], begin: usize) -> usize
    requires { begin ≤ length line.now }
    ensures { IsWordEnd line.now begin result }
{
    for end in begin..line.len() {
        if is_blank_byte(line[end]) {
            return end;
        }
    }
    line.len()
}

/// Where the first of a line's first 32 words begins with which the line goes on as no form does; the end of the line where each of them goes on so.
/// `Err`: memory.
pub fn misfit_place(alloc: Global, line: &[u8]) -> Result<usize, AllocError>
    requires { IsOneLine line.now }
    ensures { IfOk result (IsMisfit line.now) }
{
    for count in 0..WORDS {
        let Some(begin) = word_place(line, count) else {
            return Ok(line.len());
        };
        let end = word_end(line, begin);
        if !goes_on(alloc, &line[..end])? {
            return Ok(begin);
        }
    }
    Ok(line.len())
}
