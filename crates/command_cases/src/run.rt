// A run of a case, and what differs of what it is wanted to leave.
use crate::far::fars_of;
use crate::schemas::schemas_of;
use crate::setting::{Twist, failing, files_of, own_words, streams_of};
use case_text::{Fault, Part, differing_line, differing_number, part_of, tables_of};
use far_keep::MemFars;
use mix_describe::mixq_describe;
use mix_explain::mixq_explain;
use mix_io::{MemFiles, MemInput, MemSink, Streams};
use mix_reach::Stores;
use mix_top::{mixq_over, mixq_serve_over};
use schema_keep::MemSchemas;
use std::alloc::Global;
use table_keep::{MemTables, Tables};

// What a run left: its status, the bytes written, and how many pages were asked.
#[derive(Drop)]
struct Outcome {
    status: u8,
    written: Vec<u8>,
    pages: u64,
}

/// What a run is wanted to leave. Of pages it may say nothing.
#[derive(Clone, Copy)]
pub struct Wanted<'a> {
    pub status: u64,
    pub written: &'a [u8],
    pub pages: Option<u64>,
}

// A top call alone, that of serving where the first word is `serve`, and that of explanations where it is `explain`: what it promises is not needed here,
// and would make the proof of each function that knows it long.
fn call(
    alloc: Global,
    words: &[String],
    files: &mut MemFiles,
    mut stores: Stores<MemTables, MemFars>,
    streams: &mut Streams<MemInput, MemSink>,
) -> (u8, Stores<MemTables, MemFars>) {
    match words {
        [word, ..] if word.as_str() == "explain" => {
            let tables = &mut stores.tables;
            (
                mixq_explain(alloc, words, files, tables, &mut streams.out),
                stores,
            )
        }
        [word, ..] if word.as_str() == "serve" => {
            mixq_serve_over(alloc, words, files, stores, streams)
        }
        _ => mixq_over(alloc, words, files, stores, streams),
    }
}

// The top call of descriptions alone, for the same reason.
fn describe(
    alloc: Global,
    words: &[String],
    files: &mut MemFiles,
    schemas: &mut MemSchemas,
    out: &mut MemSink,
) -> u8 {
    mixq_describe(alloc, words, files, schemas, out)
}

// Runs a case whose words ask for a description. No page is asked.
fn run_description(
    alloc: Global,
    parts: &[Part<'_>],
    words: &[String],
    twist: Twist<'_>,
) -> Result<Outcome, Fault> {
    let mut files = files_of(alloc, parts, twist)?;
    let mut schemas = schemas_of(alloc, parts)?;
    let mut streams = streams_of(alloc, parts, twist)?;
    let status = describe(alloc, words, &mut files, &mut schemas, &mut streams.out);
    let written = streams.out.bytes().to_vec(alloc)?;
    Ok(Outcome {
        status,
        written,
        pages: 0,
    })
}

// Whether the first word asks for a description.
fn asks_description(words: &[String]) -> bool {
    matches!(words, [word, ..] if word.as_str() == "describe")
}

// Runs a case by a top call.
fn run(alloc: Global, parts: &[Part<'_>], twist: Twist<'_>) -> Result<Outcome, Fault> {
    let words = own_words(alloc, parts)?;
    if asks_description(&words) {
        return run_description(alloc, parts, &words, twist);
    }
    let mut files = files_of(alloc, parts, twist)?;
    let tables = tables_of(alloc, parts, failing(alloc, parts, "pages", twist)?)?;
    let fars = fars_of(alloc, parts)?;
    let mut streams = streams_of(alloc, parts, twist)?;
    let (status, stores) = call(
        alloc,
        &words,
        &mut files,
        Stores { tables, fars },
        &mut streams,
    );
    let pages = stores.tables.pages();
    let written = streams.out.bytes().to_vec(alloc)?;
    Ok(Outcome {
        status,
        written,
        pages,
    })
}

// The number of a part, where there is one.
fn number_of(parts: &[Part<'_>], word: &str) -> Result<Option<u64>, Fault> {
    match part_of(parts, word) {
        Some(part) => Ok(Some(part.number()?)),
        None => Ok(None),
    }
}

/// What the parts of a case want: `status`, 0 where none is said, `lines`, and `asked`, the pages.
pub fn read_wanted<'p>(parts: &'p [Part<'_>]) -> Result<Wanted<'p>, Fault> {
    let written = match part_of(parts, "lines") {
        Some(part) => part.bytes.as_slice(),
        None => &[],
    };
    Ok(Wanted {
        status: number_of(parts, "status")?.unwrap_or(0),
        written,
        pages: number_of(parts, "asked")?,
    })
}

// Adds to a report what was found to differ, and tells whether nothing was.
fn tell(report: &mut String, found: Option<String>) -> Result<bool, Fault> {
    match found {
        Some(text) => {
            report.push_str(&text)?;
            Ok(false)
        }
        None => Ok(true),
    }
}

// Whether a run left what is wanted; what differs is added to a report: the status, the pages and the first line.
fn is_as_wanted(
    alloc: Global,
    outcome: &Outcome,
    wanted: &Wanted<'_>,
    report: &mut String,
) -> Result<bool, Fault> {
    let status = u64::from(outcome.status);
    let asked = wanted.pages.unwrap_or(outcome.pages);
    let has_status = tell(
        report,
        differing_number(alloc, "status", wanted.status, status)?,
    )?;
    let has_pages = tell(
        report,
        differing_number(alloc, "pages", asked, outcome.pages)?,
    )?;
    let has_lines = tell(
        report,
        differing_line(alloc, wanted.written, &outcome.written)?,
    )?;
    Ok(has_status && has_pages && has_lines)
}

/// Runs a case, and tells whether it left what is wanted; what differs is added to a report.
pub fn runs(
    alloc: Global,
    parts: &[Part<'_>],
    twist: Twist<'_>,
    wanted: &Wanted<'_>,
    report: &mut String,
) -> Result<bool, Fault> {
    let outcome = run(alloc, parts, twist)?;
    is_as_wanted(alloc, &outcome, wanted, report)
}
