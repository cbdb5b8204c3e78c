// What sources give: a case of fills, each asked by a line of its part `gives`, which also says what is wanted to come.
use crate::judge::{fills_differ, said};
use crate::mount::mounted;
use crate::setting::sources_of;
use case_text::{Fault, Part, differing_line, differing_number, number, part_of};
use lxp_core::{HoleId, OpenTree, SourceFault, Sources};
use mix_tree::push_label;
use std::alloc::{AllocError, Global};
use table_keep::{MemTables, Tables};

// A hole of a source.
#[derive(Clone, Copy)]
struct Asked {
    source: u32,
    hole: HoleId,
}

// What came by fills, as text, and the holes that came, in their order.
#[derive(Drop)]
struct Given {
    text: Vec<u8>,
    holes: Vec<Asked>,
}

// Writes a hole by its number among those that came, counted from 1.
fn push_hole(alloc: Global, given: &mut Given, asked: Asked) -> Result<(), AllocError> {
    given.holes.push(asked)?;
    let name = format!(in alloc; "?{}", given.holes.len())?;
    given.text.extend_from_slice(name.as_bytes())
}

// Writes a list as bracket text with holes in it.
fn push_list(
    alloc: Global,
    given: &mut Given,
    source: u32,
    list: &[OpenTree],
) -> Result<(), AllocError> {
    for (i, item) in list.iter().enumerate() {
        if i > 0 {
            given.text.push(b',')?;
        }
        match item {
            OpenTree::Hole(hole) => {
                let hole = *hole;
                push_hole(alloc, given, Asked { source, hole })?;
            }
            OpenTree::Node { label, kids } => {
                push_label(&mut given.text, label)?;
                if !kids.is_empty() {
                    given.text.push(b'[')?;
                    push_list(alloc, given, source, kids)?;
                    given.text.push(b']')?;
                }
            }
        }
    }
    Ok(())
}

// The hole whose three words a text writes.
fn hole_of(words: &str) -> Result<HoleId, Fault> {
    let mut words = words.split(' ');
    let first = number(words.next().ok_or(Fault::Form)?)?;
    let second = number(words.next().ok_or(Fault::Form)?)?;
    let third = number(words.next().ok_or(Fault::Form)?)?;
    Ok(HoleId {
        words: [first, second, third],
    })
}

// The hole that a line asks for: `?N` is the Nth that came, a source's number alone the hole of its root, and with three words the hole of these.
// None, where there is no source of that number.
fn asked_of<S: Sources>(s: &S, given: &Given, words: &str) -> Result<Option<Asked>, Fault> {
    if let Some(came) = words.strip_prefix('?') {
        let at = number(came)?.checked_sub(1).ok_or(Fault::Form)?;
        let asked = given.holes.get(at as usize).ok_or(Fault::Form)?;
        return Ok(Some(*asked));
    }
    let (source, rest) = words.split_once(' ').unwrap_or((words, ""));
    let source = u32::try_from(number(source)?).ok().ok_or(Fault::Form)?;
    if source >= s.count() {
        return Ok(None);
    }
    let hole = if rest.is_empty() {
        s.get_root(source)
    } else {
        hole_of(rest)?
    };
    Ok(Some(Asked { source, hole }))
}

// What the fill of a hole gives; `UnknownHole`, where there is no source of its number.
fn fill<S: Sources>(alloc: Global, s: &mut S, asked: Asked) -> Result<Vec<OpenTree>, SourceFault> {
    if asked.source < s.count() {
        s.fill(alloc, asked.source, asked.hole)
    } else {
        Err(SourceFault::UnknownHole)
    }
}

// Writes what a fill gives: a list, or in parentheses that it is empty or why there is none.
fn push_fill<S: Sources>(
    alloc: Global,
    s: &mut S,
    given: &mut Given,
    asked: Asked,
) -> Result<(), Fault> {
    match fill(alloc, s, asked) {
        Ok(list) if list.is_empty() => given.text.extend_from_slice(b"(nothing)")?,
        Ok(list) => push_list(alloc, given, asked.source, &list)?,
        Err(SourceFault::Failed) => given.text.extend_from_slice(b"(failed)")?,
        Err(SourceFault::UnknownHole) => given.text.extend_from_slice(b"(unknown)")?,
        Err(SourceFault::OutOfMemory) => return Err(Fault::OutOfMemory),
    }
    Ok(())
}

// Asks what a line asks, and writes that line with what came.
fn push_line<S: Sources>(
    alloc: Global,
    s: &mut S,
    given: &mut Given,
    line: &str,
) -> Result<(), Fault> {
    let (words, _) = line.split_once(": ").ok_or(Fault::Form)?;
    given.text.extend_from_slice(words.as_bytes())?;
    given.text.extend_from_slice(b": ")?;
    match asked_of(s, given, words)? {
        Some(asked) => push_fill(alloc, s, given, asked)?,
        None => given.text.extend_from_slice(b"(no source)")?,
    }
    given.text.push(b'\n')?;
    Ok(())
}

// The lines of `gives`, each with what came.
fn given_by<S: Sources>(alloc: Global, s: &mut S, lines: &[u8]) -> Result<Vec<u8>, Fault> {
    let lines = str::from_utf8(lines).ok().ok_or(Fault::Form)?;
    let mut given = Given {
        text: Vec::new(alloc),
        holes: Vec::new(alloc),
    };
    for line in lines.lines() {
        push_line(alloc, s, &mut given, line)?;
    }
    Ok(given.text)
}

// What differs of what came and of how many fills were asked.
fn came_differs(
    alloc: Global,
    parts: &[Part<'_>],
    lines: &[u8],
    came: &[u8],
    fills: u64,
) -> Result<Option<String>, Fault> {
    let found = differing_line(alloc, lines, came)?;
    if found.is_some() {
        return Ok(found);
    }
    fills_differ(alloc, parts, fills)
}

// What differs in a case of documents in memory.
fn memory_differs(
    alloc: Global,
    parts: &[Part<'_>],
    lines: &[u8],
) -> Result<Option<String>, Fault> {
    let mut s = sources_of(alloc, parts, None)?;
    let came = given_by(alloc, &mut s, lines)?;
    came_differs(alloc, parts, lines, &came, s.fills())
}

// What differs of how many pages were asked, and how many rows these were to have.
fn pages_differ(
    alloc: Global,
    parts: &[Part<'_>],
    tables: &MemTables,
) -> Result<Option<String>, Fault> {
    let pages = tables.pages();
    let found = differing_number(alloc, "pages", said(parts, "asked", pages)?, pages)?;
    if found.is_some() {
        return Ok(found);
    }
    let rows = tables.rows();
    differing_number(alloc, "rows", said(parts, "rows", rows)?, rows)
}

// What differs in a case of mounted documents.
fn mounted_differs(
    alloc: Global,
    parts: &[Part<'_>],
    lines: &[u8],
) -> Result<Option<String>, Fault> {
    let mut s = mounted(alloc, parts)?;
    let came = given_by(alloc, &mut s, lines)?;
    let found = came_differs(alloc, parts, lines, &came, s.fills())?;
    if found.is_some() {
        return Ok(found);
    }
    pages_differ(alloc, parts, &s.into_tables())
}

/// What differs of what the fills of a case give, as lines.
pub fn judge(alloc: Global, parts: &[Part<'_>]) -> Result<Option<String>, Fault> {
    let lines = &part_of(parts, "gives").ok_or(Fault::Form)?.bytes;
    match part_of(parts, "catalog") {
        Some(_) => mounted_differs(alloc, parts, lines),
        None => memory_differs(alloc, parts, lines),
    }
}
