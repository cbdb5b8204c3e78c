// Reading labels as they are written.
ghost use Rattle.std.specs.Prelude.{◌≡◌, ◌<◌, ◌≤◌, ◌||◌, ◌==◌, [], false, length, drop, IfOk, IsTrue};
ghost use Rattle.std.specs.Str.{IsUtf8, IsCharBoundary};
ghost use Rattle.mix_tree.specs.Spelling.{is_bare};
ghost use Rattle.mix_tree.specs.LabelMachine.{start, in_quotes, seen_from};
ghost use Rattle.mix_tree.specs.LabelReads.{ReadsLabel, seen_of};

use crate::bare_table::is_bare_byte;
use crate::label_piece::{LabelPiece, next_piece};
use crate::label_scan::plain_label;
use crate::{Label, LabelRead};
use std::alloc::{AllocError, Global};

// Reads what stands after an opening quote, with escapes.
fn read_escaped(alloc: Global, text: &[u8], from: usize) -> Result<LabelRead, AllocError>
    requires inside { from ≤ length text.now }
    requires utf8 { IsUtf8 text.now }
    requires boundary { IsCharBoundary text.now from }
    ensures { IfOk result (λ read. seen_from (in_quotes []) from (drop from text.now) ≡ seen_of text.now read) }
{
    let mut label = Vec::new(alloc);
    let mut at = from;
    loop {
        match next_piece(text, at) {
            LabelPiece::Escape { to, byte } => {
                label.extend_from_slice(&text[at..to])?;
                label.push(byte)?;
                at = to + 2;
            }
            LabelPiece::Quote { to } => {
                label.extend_from_slice(&text[at..to])?;
                let label = Label::of_text(alloc, &label)?;
                return Ok(LabelRead::Got { label, end: to + 1 });
            }
            LabelPiece::Unexpected(at) => return Ok(LabelRead::Unexpected(at)),
            LabelPiece::Ends => return Ok(LabelRead::Ends),
        }
    }
}

// Reads what stands where a character begins.
fn read_at_char(alloc: Global, text: &[u8], from: usize) -> Result<LabelRead, AllocError>
    requires inside { from ≤ length text.now }
    requires utf8 { IsUtf8 text.now }
    requires boundary { IsCharBoundary text.now from }
    ensures { IfOk result (λ read. seen_from start from (drop from text.now) ≡ seen_of text.now read) }
{
    let Some(&first) = text.get(from) else {
        return Ok(LabelRead::Ends);
    };
    if !begins_label(first) {
        return Ok(LabelRead::Unexpected(from));
    }
    match plain_label(text, from) {
        Some(plain) => {
            let label = Label::of_text(alloc, &text[plain.from..plain.to])?;
            Ok(LabelRead::Got {
                label,
                end: plain.end,
            })
        }
        None => read_escaped(alloc, text, from + 1),
    }
}

// Whether a place lies inside a character.
fn is_inside_char(text: &[u8], at: usize) -> bool
    requires { at ≤ length text.now }
    ensures inside { IsTrue result → at < length text.now }
    ensures within { IsTrue result → ¬ IsCharBoundary text.now at }
    ensures boundary { result ≡ false → IsCharBoundary text.now at }
{
    at < text.len() && matches!(text[at], 128..192)
}

/// Whether a label's spelling may begin with a byte.
#[inline]
pub fn begins_label(byte: u8) -> bool
    ensures { result ≡ (is_bare byte || byte == 34) }
{
    is_bare_byte(byte) || byte == b'"'
}

/// Reads the longest spelling of a label that begins at a place of a text. Where there is none, the answer is
/// `Unexpected` at the first byte with which no spelling goes on, or `Ends` where one goes on from the end of the text.
pub fn read_label(alloc: Global, text: &[u8], from: usize) -> Result<LabelRead, AllocError>
    requires inside { from ≤ length text.now }
    requires utf8 { IsUtf8 text.now }

    // The answer is that of the grammar.
    ensures reads { IfOk result (λ read. ReadsLabel text.now from read) }

    // Where a character begins, it is what is seen byte by byte.
    ensures seen { IsCharBoundary text.now from → IfOk result (λ read. seen_from start from (drop from text.now) ≡ seen_of text.now read) }
{
    if is_inside_char(text, from) {
        return Ok(LabelRead::Unexpected(from));
    }
    read_at_char(alloc, text, from)
}
