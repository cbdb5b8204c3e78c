// The sources of other machines that a case has, and which of their fills fail.
ghost use Rattle.std.specs.Prelude.{◌≡◌, true, IfOk};
ghost use Rattle.std.specs.List.{list_all};
ghost use Rattle.far_keep.specs.Listed.{is_small};

use bracket_text::read_tree;
use case_text::{Defect, Fault, Part, number};
use far_keep::{FarSource, MemFar, MemFars};
use mix_tree::Label;
use std::alloc::{AllocError, Global};

// What words name: two files, and the number of a source behind them.
fn named(
    alloc: Global,
    replies: &str,
    requests: &str,
    number: u32,
) -> Result<FarSource, AllocError> {
    Ok(FarSource {
        replies: Label::of_text(alloc, replies.as_bytes())?,
        requests: Label::of_text(alloc, requests.as_bytes())?,
        number,
    })
}

// The numbers that words write.
fn numbers_of(alloc: Global, words: &[&str]) -> Result<Vec<u64>, Fault> {
    let mut list = Vec::new(alloc);
    for word in words {
        list.push(number(word)?)?;
    }
    Ok(list)
}

// The source that a part says: its two files and its number, the fills that fail, and the bracket text of its document.
fn said(alloc: Global, part: &Part<'_>) -> Result<MemFar, Fault> {
    let words: Vec<&str> = part.rest.split_whitespace().collect(alloc)?;
    let [replies, requests, at, failing @ ..] = words.as_slice() else {
        return Err(part.wrong(Defect::Form));
    };
    let at = at.parse::<u32>().ok().ok_or(part.wrong(Defect::Form))?;
    let document = read_tree(alloc, &part.bytes)
        .ok()
        .ok_or(part.wrong(Defect::Form))?;
    Ok(MemFar {
        far: named(alloc, replies, requests, at)?,
        document,
        failing: numbers_of(alloc, failing)?,
    })
}

// The source that a part says, whose document is small enough for a wire.
fn small(alloc: Global, part: &Part<'_>) -> Result<MemFar, Fault>
    ensures { IfOk result (λ far. is_small far ≡ true) }
{
    let far = said(alloc, part)?;
    if far.is_small() {
        Ok(far)
    } else {
        Err(part.wrong(Defect::Form))
    }
}

// The sources of other machines that parts say.
fn list(alloc: Global, parts: &[Part<'_>]) -> Result<Vec<MemFar>, Fault>
    ensures { IfOk result (λ fars. list_all is_small fars.items ≡ true) }
{
    let mut fars = Vec::new(alloc);
    for part in parts {
        if part.word == "far" {
            fars.push(small(alloc, part)?)?;
        }
    }
    Ok(fars)
}

/// The sources of other machines of a case.
pub fn fars_of(alloc: Global, parts: &[Part<'_>]) -> Result<MemFars, Fault> {
    Ok(MemFars::new(alloc, list(alloc, parts)?)?)
}
