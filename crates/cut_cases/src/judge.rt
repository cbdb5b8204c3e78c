// Whether a case of documents in pieces is answered as it is wanted.
use crate::fails::each_fill_fails;
use crate::given;
use crate::plain::{course_of, finished};
use crate::run::{Outcome, Turn, has_view, run};
use bracket_text::write_tree;
use case_text::{Defect, Fault, Part, differing_line, differing_number, part_of};
use mix_lines::LinesFault;
use std::alloc::Global;

// Whether a fault line is among these lines.
fn has_fault(lines: &[u8]) -> Result<bool, Fault> {
    let lines = str::from_utf8(lines).ok().ok_or(Fault::Form)?;
    Ok(lines.lines().any(|line| line.starts_with("fault ") || line.contains(": fault ")))
}

// Whether a run ended as its case says: where a write fails, by that alone, and else marked where a fault line is wanted.
fn has_ended(parts: &[Part<'_>], outcome: &Outcome, lines: &[u8]) -> Result<bool, Fault> {
    if part_of(parts, "writes").is_some() {
        return Ok(outcome.answer == Err(LinesFault::SinkFailed));
    }
    Ok(outcome.answer == Ok(has_fault(lines)?))
}

// What differs of the lines of a run, and of how it ended.
fn lines_differ(
    alloc: Global,
    parts: &[Part<'_>],
    outcome: &Outcome,
    lines: &[u8],
) -> Result<Option<String>, Fault> {
    let found = differing_line(alloc, lines, &outcome.written)?;
    if found.is_some() || has_ended(parts, outcome, lines)? {
        return Ok(found);
    }
    Ok(Some(format!(in alloc; "  ended {:?}\n", outcome.answer)?))
}

/// The number in the first part that begins with a given word, and where no part does a number that is given.
pub fn said(parts: &[Part<'_>], word: &str, other: u64) -> Result<u64, Fault> {
    match part_of(parts, word) {
        Some(part) => part.number(),
        None => Ok(other),
    }
}

/// What differs of how many fills were asked: just so many by `fills`, no fewer by `at-least`, no more by `at-most`.
pub fn fills_differ(
    alloc: Global,
    parts: &[Part<'_>],
    fills: u64,
) -> Result<Option<String>, Fault> {
    let least = said(parts, "at-least", 0)?.max(said(parts, "fills", 0)?);
    let most = said(parts, "at-most", u64::MAX)?.min(said(parts, "fills", u64::MAX)?);
    differing_number(alloc, "fills", fills.max(least).min(most), fills)
}

// What differs in a run of a script: in its lines, and where the plan's selections are moved also in how many fills it asked.
fn turn_differs(
    alloc: Global,
    parts: &[Part<'_>],
    turn: &Turn<'_>,
    lines: &[u8],
) -> Result<Option<String>, Fault> {
    let outcome = run(alloc, parts, turn)?;
    let found = lines_differ(alloc, parts, &outcome, lines)?;
    if found.is_some() || turn.is_unmoved {
        return Ok(found);
    }
    fills_differ(alloc, parts, outcome.fills)
}

// What differs in the runs of a script by the plan of commands and by the plan as it is made. Where fills fail by their numbers there is no
// second run, since it asks them in another order.
fn plans_differ(
    alloc: Global,
    parts: &[Part<'_>],
    script: &[u8],
    lines: &[u8],
) -> Result<Option<String>, Fault> {
    let turn = Turn {
        script,
        failing: None,
        is_unmoved: false,
    };
    let found = turn_differs(alloc, parts, &turn, lines)?;
    if found.is_some() || !has_view(parts) || part_of(parts, "fails").is_some() {
        return Ok(found);
    }
    let unmoved = Turn {
        is_unmoved: true,
        ..turn
    };
    turn_differs(alloc, parts, &unmoved, lines)
}

// What differs where the script of a case is answered.
fn script_differs(
    alloc: Global,
    parts: &[Part<'_>],
    script: &[u8],
) -> Result<Option<String>, Fault> {
    let lines = &part_of(parts, "lines").ok_or(Fault::Form)?.bytes;
    let found = plans_differ(alloc, parts, script, lines)?;
    match part_of(parts, "each-fill") {
        Some(_) if found.is_none() => each_fill_fails(alloc, parts, script, lines),
        _ => Ok(found),
    }
}

// What differs from the text of the finished document: what the definition gives, or what a print of some node writes.
fn plain_differs(alloc: Global, parts: &[Part<'_>], text: &[u8]) -> Result<Option<String>, Fault> {
    let made = finished(alloc, parts)?;
    let found = differing_line(alloc, text, &write_tree(alloc, &made)?)?;
    if found.is_some() {
        return Ok(found);
    }
    let course = course_of(alloc, &made)?;
    let turn = Turn {
        script: course.script.as_bytes(),
        failing: None,
        is_unmoved: true,
    };
    let found = turn_differs(alloc, parts, &turn, &course.wanted)?;
    if found.is_some() {
        return Ok(found);
    }
    let outcome = run(
        alloc,
        parts,
        &Turn {
            is_unmoved: false,
            ..turn
        },
    )?;
    lines_differ(alloc, parts, &outcome, &course.wanted)
}

// Refuses a case where one of these parts stands and the other doesn't.
fn check_beside(parts: &[Part<'_>], word: &str, other: &str) -> Result<(), Fault> {
    match (part_of(parts, word), part_of(parts, other)) {
        (Some(part), None) | (None, Some(part)) => Err(part.wrong(Defect::Beside)),
        _ => Ok(()),
    }
}

/// What differs of what a case wants, as lines.
pub fn judge(alloc: Global, parts: &[Part<'_>]) -> Result<Option<String>, Fault> {
    if part_of(parts, "gives").is_some() {
        return given::judge(alloc, parts);
    }
    check_beside(parts, "script", "lines")?;
    let plain = part_of(parts, "plain");
    let mut found = None;
    if let Some(plain) = plain {
        found = plain_differs(alloc, parts, &plain.bytes)?;
    }
    match part_of(parts, "script") {
        Some(script) if found.is_none() => script_differs(alloc, parts, &script.bytes),
        None if plain.is_none() => Err(Fault::Form),
        _ => Ok(found),
    }
}
