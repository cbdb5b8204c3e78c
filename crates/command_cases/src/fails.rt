// Runs of a case in which each call of a kind fails in turn.
use crate::run::{Wanted, runs};
use crate::setting::Twist;
use case_text::{Defect, Fault, Part, numbers, part_of};
use std::alloc::Global;

/// Adds to a report in which run a case differs.
pub fn tell_run(alloc: Global, report: &mut String, kind: &str, number: u64) -> Result<(), Fault> {
    let line = format!(in alloc; "  with {kind} {number}\n")?;
    report.push_str(&line)?;
    Ok(())
}

// Whether a case in which the call of a number fails too, one of the calls of this name, leaves what is wanted.
fn call_fails(
    alloc: Global,
    parts: &[Part<'_>],
    call: (&str, u64),
    wanted: &Wanted<'_>,
    report: &mut String,
) -> Result<bool, Fault> {
    let (calls, number) = call;
    let is_right = runs(alloc, parts, Twist::Fails(calls, number), wanted, report)?;
    if !is_right {
        tell_run(alloc, report, calls, number)?;
    }
    Ok(is_right)
}

/// What a run is wanted to leave that ends with this status and these bytes.
pub fn ended(status: u64, written: &[u8]) -> Wanted<'_> {
    Wanted {
        status,
        written,
        pages: None,
    }
}

// The number of lines.
fn count_lines(lines: &[u8]) -> u64 {
    let mut count = 0_u64;
    for byte in lines {
        if *byte == b'\n' {
            count = count.saturating_add(1);
        }
    }
    count
}

// The lines before that of a number, counted from 1, and half of that one.
fn lines_before(lines: &[u8], number: u64) -> &[u8] {
    let mut left = number;
    let mut from = 0;
    for (at, byte) in lines.iter().enumerate() {
        if *byte == b'\n' {
            left = left.saturating_sub(1);
            if left == 0 {
                let half = (at + 1).saturating_sub(from) / 2;
                return lines.get(..half.saturating_add(from)).unwrap_or(lines);
            }
            from = at + 1;
        }
    }
    lines
}

// Each write fails in turn: the lines before it are written, and half of its own. There is no write after the last, so none fails there.
fn writes_fail(
    alloc: Global,
    parts: &[Part<'_>],
    whole: &Wanted<'_>,
    report: &mut String,
) -> Result<bool, Fault> {
    let count = count_lines(whole.written);
    for number in 0..count {
        let number = number.saturating_add(1);
        let wanted = ended(5, lines_before(whole.written, number));
        if !call_fails(alloc, parts, ("writes", number), &wanted, report)? {
            return Ok(false);
        }
    }
    call_fails(
        alloc,
        parts,
        ("writes", count.saturating_add(1)),
        whole,
        report,
    )
}

// Each read fails in turn, and the one line names its file: `paths` has that of each. A read after the last is none.
fn reads_fail(
    alloc: Global,
    parts: &[Part<'_>],
    paths: &str,
    whole: &Wanted<'_>,
    report: &mut String,
) -> Result<bool, Fault> {
    let mut number = 0_u64;
    for path in paths.split_whitespace() {
        number = number.saturating_add(1);
        let line = format!(in alloc; "{path}: cannot be read\n")?;
        let wanted = ended(4, line.as_bytes());
        if !call_fails(alloc, parts, ("reads", number), &wanted, report)? {
            return Ok(false);
        }
    }
    call_fails(
        alloc,
        parts,
        ("reads", number.saturating_add(1)),
        whole,
        report,
    )
}

// How many of the first lines of an input have an answer: those whose ends are among its first bytes, but for those of the numbers `silent`.
fn count_answers(input: &[u8], silent: &[u64]) -> u64 {
    let mut line = 0_u64;
    let mut count = 0_u64;
    for byte in input {
        if *byte == b'\n' {
            line = line.saturating_add(1);
            if !silent.contains(&line) {
                count = count.saturating_add(1);
            }
        }
    }
    count
}

// The first lines of a text, as many as a number says.
fn first_lines(lines: &[u8], count: u64) -> &[u8] {
    let mut left = count;
    for (at, byte) in lines.iter().enumerate() {
        if left == 0 {
            return &lines[..at];
        }
        if *byte == b'\n' {
            left = left.saturating_sub(1);
        }
    }
    lines
}

// Each take fails in turn, also the one that tells the end: all whole lines before it are answered. There is none after that, so none fails there.
fn takes_fail(
    alloc: Global,
    parts: &[Part<'_>],
    input: &Part<'_>,
    whole: &Wanted<'_>,
    report: &mut String,
) -> Result<bool, Fault> {
    let most = input.number()?.max(1);
    let silent = numbers(alloc, parts, "each-take")?;
    let takes = (input.bytes.len() as u64).div_ceil(most).saturating_add(1);
    for number in 0..takes {
        let come = number.saturating_mul(most) as usize;
        let prefix = input.bytes.get(..come).unwrap_or(&input.bytes);
        let answers = first_lines(whole.written, count_answers(prefix, &silent));
        let call = ("takes", number.saturating_add(1));
        if !call_fails(alloc, parts, call, &ended(10, answers), report)? {
            return Ok(false);
        }
    }
    call_fails(
        alloc,
        parts,
        ("takes", takes.saturating_add(1)),
        whole,
        report,
    )
}

/// Whether a case leaves what is wanted where each call of a kind fails in turn, as far as it says so.
pub fn failures(
    alloc: Global,
    parts: &[Part<'_>],
    whole: &Wanted<'_>,
    report: &mut String,
) -> Result<bool, Fault> {
    let mut is_right = true;
    if part_of(parts, "each-write").is_some() {
        is_right = writes_fail(alloc, parts, whole, report)?;
    }
    if let Some(part) = part_of(parts, "each-read") {
        is_right &= reads_fail(alloc, parts, part.rest, whole, report)?;
    }
    if let Some(part) = part_of(parts, "each-take") {
        let input = part_of(parts, "input").ok_or(part.wrong(Defect::Beside))?;
        is_right &= takes_fail(alloc, parts, input, whole, report)?;
    }
    Ok(is_right)
}
