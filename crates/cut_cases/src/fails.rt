// Runs of a case of documents in pieces in which each fill fails in turn.
use crate::run::{Turn, run};
use case_text::{Fault, Part, differing_line, differing_number};
use std::alloc::Global;

// The text of some bytes.
fn text_of(bytes: &[u8]) -> Result<&str, Fault> {
    str::from_utf8(bytes).ok().ok_or(Fault::Form)
}

// The lines of a text, with one more before the line at an index, which counts from 0.
fn with_line(alloc: Global, text: &str, at: usize, more: &str) -> Result<String, Fault> {
    let mut lines = String::new(alloc);
    for (i, line) in text.lines().enumerate() {
        if i == at {
            lines.push_str(more)?;
            lines.push_str("\n")?;
        }
        lines.push_str(line)?;
        lines.push_str("\n")?;
    }
    Ok(lines)
}

// The number of the first line that differs from the one in its place; of the last line, where none does.
fn first_other(lines: &str, others: &str) -> usize {
    let mut pairs = lines.lines().zip(others.lines());
    match pairs.position(|(line, other)| line != other) {
        Some(at) => at,
        None => others.lines().count().saturating_sub(1),
    }
}

// The index of the first line that differs in a run in which a fill fails: the step there is the one that was answered by the fault.
fn faulty_step(
    alloc: Global,
    parts: &[Part<'_>],
    turn: &Turn<'_>,
    lines: &str,
) -> Result<usize, Fault> {
    let outcome = run(alloc, parts, turn)?;
    Ok(first_other(text_of(&outcome.written)?, lines))
}

// The lines that are wanted where the step of a number is answered by a fault of a source and then given again.
fn faulty_lines(alloc: Global, lines: &str, at: usize, source: &[u8]) -> Result<String, Fault> {
    let source = text_of(source)?;
    let fault = format!(in alloc; "fault {source}")?;
    with_line(alloc, lines, at, &fault)
}

// A script, the lines that answer it, and how many fills they ask.
#[derive(Clone, Copy)]
struct Whole<'a> {
    script: &'a str,
    lines: &'a str,
    fills: u64,
}

// What differs where the fill of a number fails: one step is answered by a fault that names the source that failed, the same step is
// answered when it is given again, all others are answered as before, and one fill more is asked.
fn fill_fails(
    alloc: Global,
    parts: &[Part<'_>],
    whole: Whole<'_>,
    number: u64,
) -> Result<Option<String>, Fault> {
    let turn = Turn {
        script: whole.script.as_bytes(),
        failing: Some(number),
        is_unmoved: false,
    };
    let at = faulty_step(alloc, parts, &turn, whole.lines)?;
    let step = whole.script.lines().nth(at).ok_or(Fault::Form)?;
    let script = with_line(alloc, whole.script, at, step)?;
    let script = script.as_bytes();
    let outcome = run(alloc, parts, &Turn { script, ..turn })?;
    let wanted = faulty_lines(alloc, whole.lines, at, &outcome.failed)?;
    let found = differing_line(alloc, wanted.as_bytes(), &outcome.written)?;
    if found.is_some() {
        return Ok(found);
    }
    if outcome.answer != Ok(true) {
        return Ok(Some(format!(in alloc; "  ended {:?}\n", outcome.answer)?));
    }
    differing_number(alloc, "fills", whole.fills.saturating_add(1), outcome.fills)
}

/// What differs where each fill of a run fails in turn, of which there is one at least. Each line of the script is a step.
pub fn each_fill_fails(
    alloc: Global,
    parts: &[Part<'_>],
    script: &[u8],
    lines: &[u8],
) -> Result<Option<String>, Fault> {
    let turn = Turn {
        script,
        failing: None,
        is_unmoved: false,
    };
    let fills = run(alloc, parts, &turn)?.fills;
    let script = text_of(script)?;
    let lines = text_of(lines)?;
    if fills == 0 || script.lines().count() != lines.lines().count() {
        return Err(Fault::Form);
    }
    let whole = Whole {
        script,
        lines,
        fills,
    };
    for number in 0..fills {
        let number = number.saturating_add(1);
        if let Some(found) = fill_fails(alloc, parts, whole, number)? {
            return Ok(Some(format!(in alloc; "{found}  with fill {number}\n")?));
        }
    }
    Ok(None)
}
