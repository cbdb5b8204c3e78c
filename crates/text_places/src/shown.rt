// A place in words, its line, and a mark below the place.
ghost use Rattle.std.specs.Prelude.{◌≡◌, ◌≤◌, ◌++◌, IfOk, length, map, codes, string_bytes};
ghost use Rattle.std.specs.Fmt.{decimal};
ghost use Rattle.text_places.specs.Shown.{ShowsPlace, blanks_for, shown_byte};

use crate::place::{TextPlace, begins_char, place_at};
use std::alloc::{AllocError, Global};

// How a byte of a line is shown: a tab as a space, any other control byte as a question mark.
fn shown_byte(byte: u8) -> u8
    ensures { result ≡ shown_byte byte }
{
    match byte {
        b'\t' => b' ',
        0..=31 | 127 => b'?',
        _ => byte,
    }
}

// A line as it is shown.
fn shown_line(alloc: Global, line: &[u8]) -> Result<Vec<u8>, AllocError>
    ensures { IfOk result (λ shown. shown.items ≡ map shown_byte line.now) }
{
    line.iter().map(|b| shown_byte(*b)).collect(alloc)
}

// A blank for each character of bytes.
fn blanks_for(alloc: Global, bytes: &[u8]) -> Result<Vec<u8>, AllocError>
    ensures { IfOk result (λ blanks. blanks.items ≡ blanks_for bytes.now) }
{
    bytes
        .iter()
        .filter(|b| begins_char(**b))
        .map(|_| b' ')
        .collect(alloc)
}

// The line and the column of a place, in words.
fn place_words(alloc: Global, place: TextPlace) -> Result<String, AllocError>
    ensures { IfOk result (λ words. string_bytes words ≡ codes "line " ++ decimal place.line ++ codes ", column " ++ decimal place.column ++ codes ":\n") }
{
    let TextPlace { line, column, .. } = place;
    format!(in alloc; "line {line}, column {column}:\n")
}

/// The line and the column of a byte of a text, or of its end, that line, and a mark below the place: three lines, each with LF.
pub fn place_text(alloc: Global, text: &[u8], at: usize) -> Result<Vec<u8>, AllocError>
    requires { at ≤ length text.now }
    ensures { IfOk result (λ shown. ShowsPlace text.now at shown.items) }
{
    let place = place_at(text, at);
    let words = place_words(alloc, place)?;
    let mut shown = Vec::from_slice(alloc, words.as_bytes())?;
    let line = shown_line(alloc, &text[place.begin..place.end])?;
    shown.extend_from_slice(&line)?;
    shown.push(b'\n')?;
    let blanks = blanks_for(alloc, &text[place.begin..at])?;
    shown.extend_from_slice(&blanks)?;
    shown.extend_from_slice(b"^\n")?;
    Ok(shown)
}
