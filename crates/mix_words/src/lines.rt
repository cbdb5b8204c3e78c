// The lines of a text that is read line by line, as a script.
ghost use Rattle.std.specs.Prelude.{◌≡◌, IfOk, map};
ghost use Rattle.mix_words.specs.Lines.{lines_of, is_passed, without_cr};

use crate::words::is_blank_byte;
use std::alloc::{AllocError, Global};

// A line without a CR at its end.
fn trim_cr(line: &[u8]) -> &[u8]
    ensures { result.now ≡ without_cr line.now }
{
    match line {
        [prefix @ .., b'\r'] => prefix,
        _ => line,
    }
}

/// The lines of a text. Each ends with LF or with the text, and a CR right before the LF is dropped.
pub fn cut_lines(alloc: Global, text: &[u8]) -> Result<Vec<&[u8]>, AllocError>
    ensures { IfOk result (λ lines. map (λ line. line.now) lines.items ≡ lines_of text.now) }
{
    let mut lines = Vec::new(alloc);
    let mut from = 0;
    for (at, byte) in text.iter().enumerate() {
        if *byte == b'\n' {
            lines.push(trim_cr(&text[from..at]))?;
            from = at + 1;
        }
    }
    if from < text.len() {
        lines.push(&text[from..])?;
    }
    Ok(lines)
}

/// Whether a line is passed over: it has only spaces and tabs, or `#` comes first after them.
pub fn is_passed_over(line: &[u8]) -> bool
    ensures { result ≡ is_passed line.now }
{
    for byte in line {
        if !is_blank_byte(*byte) {
            return *byte == b'#';
        }
    }
    true
}
