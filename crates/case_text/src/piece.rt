// Pieces: the lines after a part, which spell its bytes.
use crate::fault::Fault;
use crate::part::{Part, number};
use std::alloc::Global;

/// Whether a line is a piece of the part before it.
pub fn is_piece(line: &str) -> bool {
    matches!(
        line.as_bytes(),
        [b'|' | b'\'' | b'=' | b'$' | b'*' | b'+', ..]
    )
}

// The bytes of the text of a name, which stands before.
fn text_of<'p>(parts: &'p [Part<'_>], name: &str) -> Result<&'p [u8], Fault> {
    for part in parts {
        if part.word == "text" && part.rest == name {
            return Ok(&part.bytes);
        }
    }
    Err(Fault::Name)
}

// The first byte of a line, and what follows it.
fn mark_of(line: &str) -> Option<(u8, &str)> {
    let mark = *line.as_bytes().first()?;
    let (_, text) = line.split_at_checked(1)?;
    Some((mark, text))
}

// Adds the bytes of a piece that is no repetition: `|` a line, `'` a text without its end, `=` a byte by its number, `$` a text by its name.
fn push_one(bytes: &mut Vec<u8>, parts: &[Part<'_>], piece: &str) -> Result<(), Fault> {
    match mark_of(piece) {
        Some((b'|', text)) => {
            bytes.extend_from_slice(text.as_bytes())?;
            bytes.push(b'\n')?;
        }
        Some((b'\'', text)) => bytes.extend_from_slice(text.as_bytes())?,
        Some((b'=', text)) => bytes.push(text.parse::<u8>().ok().ok_or(Fault::Form)?)?,
        Some((b'$', name)) => bytes.extend_from_slice(text_of(parts, name)?)?,
        _ => return Err(Fault::Form),
    }
    Ok(())
}

// Adds the bytes of so many times a piece.
fn push_times(bytes: &mut Vec<u8>, parts: &[Part<'_>], repeated: &str) -> Result<(), Fault> {
    let (times, one) = repeated.split_once(' ').ok_or(Fault::Form)?;
    for _ in 0..number(times)? {
        push_one(bytes, parts, one)?;
    }
    Ok(())
}

// Adds the bytes of so many times a piece, with the number of each, from 1 on, in place of `%`.
fn push_numbered(
    alloc: Global,
    bytes: &mut Vec<u8>,
    parts: &[Part<'_>],
    repeated: &str,
) -> Result<(), Fault> {
    let (times, one) = repeated.split_once(' ').ok_or(Fault::Form)?;
    let (before, after) = one.split_once('%').ok_or(Fault::Form)?;
    for each in 0..number(times)? {
        let piece = format!(in alloc; "{before}{}{after}", each.saturating_add(1))?;
        push_one(bytes, parts, &piece)?;
    }
    Ok(())
}

/// Adds the bytes of a piece: after `*` and `+` stands how often another is taken, with `+` the number of each in place of `%`; else it is one by itself.
pub fn push_piece(
    alloc: Global,
    bytes: &mut Vec<u8>,
    parts: &[Part<'_>],
    piece: &str,
) -> Result<(), Fault> {
    match mark_of(piece) {
        Some((b'*', repeated)) => push_times(bytes, parts, repeated),
        Some((b'+', repeated)) => push_numbered(alloc, bytes, parts, repeated),
        _ => push_one(bytes, parts, piece),
    }
}
