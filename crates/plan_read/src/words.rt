// The words of a plan's line.
ghost use Rattle.std.specs.Prelude.{◌≡◌, IfOk, map};
ghost use Rattle.plan_read.specs.Words.{mode_after, is_outside, cut};
ghost use Rattle.plan_read.specs.declared.words.Mode.TheVariants.{Plain};

use std::alloc::{AllocError, Global};

/// Where a byte of a line stands.
#[derive(Clone, Copy)]
pub enum Mode {
    /// Outside of quotes and braces.
    Plain,
    /// Between braces.
    Braced,
    /// Between quotes.
    Quoted,
    /// Between quotes, after a backslash.
    Escaped,
}

// Where the next byte stands, after one that stands in a mode.
fn mode_after(mode: Mode, byte: u8) -> Mode
    ensures { result ≡ mode_after mode byte }
{
    match mode {
        Mode::Plain if byte == b'"' => Mode::Quoted,
        Mode::Plain if byte == b'{' => Mode::Braced,
        Mode::Plain => Mode::Plain,
        Mode::Braced if byte == b'}' => Mode::Plain,
        Mode::Braced => Mode::Braced,
        Mode::Quoted if byte == b'"' => Mode::Plain,
        Mode::Quoted if byte == b'\\' => Mode::Escaped,
        Mode::Quoted | Mode::Escaped => Mode::Quoted,
    }
}

// Whether a byte in a mode stands outside of quotes and braces.
fn is_outside(mode: Mode) -> bool
    ensures { result ≡ is_outside mode }
{
    matches!(mode, Mode::Plain)
}

/// The pieces of a text, which a separator parts where it stands outside of quotes and braces. There is one at least.
pub fn cut(alloc: Global, text: &[u8], separator: u8) -> Result<Vec<&[u8]>, AllocError>
    ensures { IfOk result (λ pieces. map (λ piece. piece.now) pieces.items ≡ cut separator Plain text.now) }
{
    let mut pieces = Vec::new(alloc);
    let mut from = 0;
    let mut mode = Mode::Plain;
    for (at, byte) in text.iter().enumerate() {
        if is_outside(mode) && *byte == separator {
            pieces.push(&text[from..at])?;
            from = at + 1;
        } else {
            mode = mode_after(mode, *byte);
        }
    }
    pieces.push(&text[from..])?;
    Ok(pieces)
}
