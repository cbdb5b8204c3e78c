// What can stand at a place of a view's text.
ghost use Rattle.std.specs.Prelude.{◌≡◌, ◌≤◌, ◌∷◌, [], IfOk, cond, length};
ghost use Rattle.view_continuations.specs.Expected.{AreExpected, AreTried, IsAskedAt, IsLastWord, ends_backslash};
ghost use Rattle.xmas_tokens.specs.Lexical.{is_letter};
ghost use Rattle.view_continuations.specs.declared.candidate.Candidate.TheVariants.{Escape};

use crate::candidate::{Candidate, TOKENS};
use crate::fits::fitting;
use crate::going_on::goes_on;
use std::alloc::{AllocError, Global};
use std::str;

/// What can stand at a place of a text: the place, and the candidates, in the order in which they are tried.
#[derive(Drop)]
pub struct Expected {
    pub at: usize,
    pub candidates: Vec<Candidate>,
}

// The candidates that a front's last byte lets try, outside of labels or after a backslash in one.
fn tried_outside(front: &[u8]) -> &'static [Candidate]
    ensures { result.now ≡ cond (ends_backslash front.now) (Escape ∷ []) TOKENS.now }
{
    match front.last() {
        Some(last) if *last == b'\\' => &[Candidate::Escape],
        _ => TOKENS,
    }
}

// The candidates that are tried after a front: inside a label its end alone, and after a backslash there what is escaped. `Err`: memory.
fn tried_after(alloc: Global, front: &str) -> Result<&'static [Candidate], AllocError>
    ensures { IfOk result (λ tried. AreTried front.now tried.now) }
{
    // Outside of a label no text goes on with this sign.
    let inside = format!(in alloc; "{front};")?;
    if goes_on(alloc, inside.as_str())? {
        return Ok(&[Candidate::LabelEnd]);
    }
    Ok(tried_outside(front.as_bytes()))
}

// What can stand at a place of a text. `Err`: memory.
fn expected_here(alloc: Global, text: &[u8], at: usize) -> Result<Expected, AllocError>
    requires { at ≤ length text.now }
    ensures are { IfOk result (AreExpected text.now) }
    ensures here { IfOk result (λ expected. expected.at ≡ at) }
{
    let Ok(front) = str::from_utf8(&text[..at]) else {
        return Ok(Expected {
            at,
            candidates: Vec::new(alloc),
        });
    };
    let tried = tried_after(alloc, front)?;
    Ok(Expected {
        at,
        candidates: fitting(alloc, front, tried)?,
    })
}

// Whether a byte is an ASCII letter.
fn is_letter_byte(byte: u8) -> bool
    ensures { result ≡ is_letter byte }
{
    matches!(byte, b'a'..=b'z' | b'A'..=b'Z')
}

// Where the word begins that ends at a place: after the last byte before it that is no ASCII letter.
fn last_word(text: &[u8], at: usize) -> usize
    requires { at ≤ length text.now }
    ensures { IsLastWord text.now at result }
{
    let mut begin = 0;
    for k in 0..at {
        if !is_letter_byte(text[k]) {
            begin = k + 1;
        }
    }
    begin
}

/// What can stand at a place of a text, or, where nothing can, in place of the word before it. `Err`: memory.
pub fn expected_at(alloc: Global, text: &[u8], at: usize) -> Result<Expected, AllocError>
    requires { at ≤ length text.now }
    ensures are { IfOk result (AreExpected text.now) }
    ensures place { IfOk result (λ expected. IsAskedAt text.now at expected.at) }
{
    let here = expected_here(alloc, text, at)?;
    if !here.candidates.is_empty() {
        return Ok(here);
    }
    let expected = expected_here(alloc, text, last_word(text, at))?;
    Ok(expected)
}
