// What was wanted beside what came, as lines for the author of a case.
use crate::fault::Fault;
use std::alloc::Global;

// The first line of some bytes, with its end, and what follows it.
fn cut_line(bytes: &[u8]) -> (&[u8], &[u8]) {
    let end = match bytes.iter().position(|byte| *byte == b'\n') {
        Some(at) => at.saturating_add(1),
        None => bytes.len(),
    };
    bytes.split_at_checked(end).unwrap_or((bytes, &[]))
}

// Adds the piece that spells a line: `|` one with its end, `'` one without.
fn push_piece(alloc: Global, text: &mut String, line: &[u8]) -> Result<(), Fault> {
    if line.is_empty() {
        text.push_str("nothing")?;
        return Ok(());
    }
    let (mark, line) = match line {
        [prefix @ .., b'\n'] => ("|", prefix),
        _ => ("'", line),
    };
    text.push_str(mark)?;
    text.push_str(&String::from_utf8_lossy(alloc, line)?)?;
    Ok(())
}

// The first line in which two texts differ, with its number.
fn first_difference<'a>(wanted: &'a [u8], came: &'a [u8]) -> Option<(u64, &'a [u8], &'a [u8])> {
    let (mut wanted, mut came) = (wanted, came);
    for number in 1..u64::MAX {
        let (wanted_line, wanted_rest) = cut_line(wanted);
        let (line, rest) = cut_line(came);
        if wanted_line != line {
            return Some((number, wanted_line, line));
        }
        if line.is_empty() {
            return None;
        }
        (wanted, came) = (wanted_rest, rest);
    }
    None
}

/// The first line that differs, with its number, as it was wanted and as it came.
pub fn differing_line(alloc: Global, wanted: &[u8], came: &[u8]) -> Result<Option<String>, Fault> {
    let Some((number, wanted, came)) = first_difference(wanted, came) else {
        return Ok(None);
    };
    let mut text = format!(in alloc; "  line {number}\n    wanted ")?;
    push_piece(alloc, &mut text, wanted)?;
    text.push_str("\n    came   ")?;
    push_piece(alloc, &mut text, came)?;
    text.push_str("\n")?;
    Ok(Some(text))
}

/// A number that differs, as it was wanted and as it came.
pub fn differing_number(
    alloc: Global,
    name: &str,
    wanted: u64,
    came: u64,
) -> Result<Option<String>, Fault> {
    if wanted == came {
        return Ok(None);
    }
    let text = format!(in alloc; "  {name}\n    wanted {wanted}\n    came   {came}\n")?;
    Ok(Some(text))
}
