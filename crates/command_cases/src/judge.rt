// Whether a case of a command is answered as it is wanted: as it stands, with each prefix of a file, or with each text of a list.
use crate::fails::{ended, failures, tell_run};
use crate::run::{Wanted, read_wanted, runs};
use crate::setting::Twist;
use case_text::{Defect, Fault, Part, has_part, number, part_of};
use std::alloc::Global;

// The path of a file and two numbers, which stand after a word.
fn path_and_numbers(words: &str) -> Result<(&str, u64, u64), Fault> {
    let (path, numbers) = words.split_once(' ').ok_or(Fault::Form)?;
    let (first, last) = numbers.split_once(' ').ok_or(Fault::Form)?;
    Ok((path, number(first)?, number(last)?))
}

// Whether each prefix of a file, from so many bytes to so many, comes to what the case wants.
fn prefixes_are_right(
    alloc: Global,
    parts: &[Part<'_>],
    words: &str,
    whole: &Wanted<'_>,
    report: &mut String,
) -> Result<bool, Fault> {
    let (path, first, last) = path_and_numbers(words)?;
    if !has_part(parts, "file", path) || first > last {
        return Err(Fault::Form);
    }
    for end in first..last.saturating_add(1) {
        if !runs(alloc, parts, Twist::Ends(path, end), whole, report)? {
            tell_run(alloc, report, "prefix", end)?;
            return Ok(false);
        }
    }
    Ok(true)
}

// Some lines, and one more.
fn with_line(alloc: Global, lines: &[u8], line: &[u8]) -> Result<Vec<u8>, Fault> {
    let mut all = lines.to_vec(alloc)?;
    all.extend_from_slice(line)?;
    all.push(b'\n')?;
    Ok(all)
}

// The lines of pairs.
fn lines_of<'p>(alloc: Global, pairs: &'p Part<'_>) -> Result<Vec<&'p [u8]>, Fault> {
    let [prefix @ .., b'\n'] = pairs.bytes.as_slice() else {
        return Err(pairs.wrong(Defect::Form));
    };
    Ok(prefix.split(|byte| *byte == b'\n').collect(alloc)?)
}

// Whether each line of some pairs, as the text of a file, is answered by the line after it.
fn pairs_are_right(
    alloc: Global,
    parts: &[Part<'_>],
    pairs: &Part<'_>,
    whole: &Wanted<'_>,
    report: &mut String,
) -> Result<bool, Fault> {
    let lines = lines_of(alloc, pairs)?;
    let mut number = 0_u64;
    for pair in lines.chunks(2) {
        let [text, answer] = pair else {
            return Err(pairs.wrong(Defect::Form));
        };
        number = number.saturating_add(1);
        let all = with_line(alloc, whole.written, answer)?;
        let text = Twist::Holds(pairs.rest, text);
        if !runs(alloc, parts, text, &ended(whole.status, &all), report)? {
            tell_run(alloc, report, "pair", number)?;
            return Ok(false);
        }
    }
    Ok(true)
}

// Refuses a part beside which stands one that it leaves no place for.
fn check_alone(parts: &[Part<'_>], part: &Part<'_>, others: &[&str]) -> Result<(), Fault> {
    for other in others {
        if part_of(parts, other).is_some() {
            return Err(part.wrong(Defect::Beside));
        }
    }
    Ok(())
}

// Whether a case leaves what it wants; what differs is added to a report.
fn is_right(alloc: Global, parts: &[Part<'_>], report: &mut String) -> Result<bool, Fault> {
    let whole = read_wanted(parts)?;
    let others = ["each-read", "each-take", "each-write", "asked"];
    if let Some(part) = part_of(parts, "prefixes") {
        check_alone(parts, part, &others)?;
        check_alone(parts, part, &["pairs"])?;
        return prefixes_are_right(alloc, parts, part.rest, &whole, report);
    }
    if let Some(part) = part_of(parts, "pairs") {
        check_alone(parts, part, &others)?;
        return pairs_are_right(alloc, parts, part, &whole, report);
    }
    Ok(runs(alloc, parts, Twist::None, &whole, report)? && failures(alloc, parts, &whole, report)?)
}

/// What differs of what a case wants, as lines.
pub fn judge(alloc: Global, parts: &[Part<'_>]) -> Result<Option<String>, Fault> {
    let mut report = String::new(alloc);
    if is_right(alloc, parts, &mut report)? {
        Ok(None)
    } else {
        Ok(Some(report))
    }
}
