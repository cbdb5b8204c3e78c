// Which candidates can stand after a front.
ghost use Rattle.std.specs.Prelude.{◌≡◌, IfOk};
ghost use Rattle.view_continuations.specs.Fits.{CanStand, FitsAfterBlank, FitsAtOnce, FitsSpelled, Kept, Tells, ends_word};
ghost use Rattle.xmas_tokens.specs.Lexical.{is_word_byte};

use crate::candidate::Candidate;
use crate::going_on::{goes_on, is_whole};
use std::alloc::{AllocError, Global};

// Whether a byte may stand in a word: an ASCII letter, a digit or `_`.
fn is_in_word(byte: u8) -> bool
    ensures { result ≡ is_word_byte byte }
{
    matches!(byte, b'a'..=b'z' | b'A'..=b'Z' | b'0'..=b'9' | b'_')
}

// Whether a text ends with a letter, a digit or `_`.
fn ends_word(text: &[u8]) -> bool
    ensures { result ≡ ends_word text.now }
{
    match text.last() {
        Some(last) => is_in_word(*last),
        None => false,
    }
}

// Whether the text of some rule begins with a front and a spelling after it, unless the two are one word. `Err`: memory.
fn fits_at_once(alloc: Global, front: &str, spelling: &str, joins: bool) -> Result<bool, AllocError>
    ensures { IfOk result (Tells (FitsAtOnce front.now spelling.now joins)) }
{
    if joins {
        return Ok(false);
    }
    let text = format!(in alloc; "{front}{spelling}")?;
    goes_on(alloc, text.as_str())
}

// Whether the text of some rule begins with a front, a blank and a spelling. `Err`: memory.
fn fits_after_blank(alloc: Global, front: &str, spelling: &str) -> Result<bool, AllocError>
    ensures { IfOk result (Tells (FitsAfterBlank front.now spelling.now)) }
{
    let text = format!(in alloc; "{front} {spelling}")?;
    goes_on(alloc, text.as_str())
}

// Whether the text of some rule begins with a front and a spelling after it, or with a blank between them. `Err`: memory.
fn fits_spelled(alloc: Global, front: &str, spelling: &str, joins: bool) -> Result<bool, AllocError>
    ensures { IfOk result (Tells (FitsSpelled front.now spelling.now joins)) }
{
    if fits_at_once(alloc, front, spelling, joins)? {
        return Ok(true);
    }
    fits_after_blank(alloc, front, spelling)
}

// Whether a candidate can stand after a front. `Err`: memory.
fn can_stand(alloc: Global, front: &str, candidate: Candidate) -> Result<bool, AllocError>
    ensures { IfOk result (Tells (CanStand front.now candidate)) }
{
    let joins = ends_word(front.as_bytes()) && candidate.begins_word();
    match candidate.spelling() {
        Some(spelling) => fits_spelled(alloc, front, spelling, joins),
        None => is_whole(alloc, front),
    }
}

/// Those of some candidates that can stand after the front of a view's text, in their order. `Err`: memory.
pub fn fitting(
    alloc: Global,
    front: &str,
    candidates: &[Candidate],
) -> Result<Vec<Candidate>, AllocError>
    ensures { IfOk result (λ fit. Kept (CanStand front.now) candidates.now fit.items) }
{
    let mut fit = Vec::new(alloc);
    for candidate in candidates {
        if can_stand(alloc, front, *candidate)? {
            fit.push(*candidate)?;
        }
    }
    Ok(fit)
}
