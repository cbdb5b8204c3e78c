// A run of the cases of texts.
use crate::fault::Fault;
use crate::form::check_places;
use crate::part::{Part, cut_parts, is_head};
use std::alloc::Global;
use std::process::ExitCode;
use std::{env, fs};

/// How cases of a kind are judged.
pub trait Judge {
    /// What differs of what the case of these parts wants, as lines; none where all is as it is wanted. `Fault`: a part has no form of
    /// this kind of case, or memory ran out.
    fn differing(alloc: Global, parts: &[Part<'_>]) -> Result<Option<String>, Fault>;
}

// Runs the case that some parts are, and tells whether it is answered as it is wanted. A setting or a text is none.
fn run_case<J: Judge>(rt: &HostRuntime, path: &str, parts: &[Part<'_>]) -> Result<bool, Fault> {
    let Some((first, others)) = parts.split_first() else {
        return Ok(true);
    };
    if first.word != "case" {
        return Ok(true);
    }
    match J::differing(rt.alloc(), others) {
        Ok(None) => Ok(true),
        Ok(Some(found)) => {
            print!(rt; "{path}: {} differs\n{found}", first.rest)?;
            Ok(false)
        }
        Err(fault) => Err(fault.at(first.line)),
    }
}

// Runs the cases of a text, and tells how many differ.
fn run_cases<J: Judge>(rt: &HostRuntime, path: &str, text: &str) -> Result<u64, Fault> {
    let parts = cut_parts(rt.alloc(), text)?;
    check_places(&parts)?;
    let mut count = 0_u64;
    for case in parts.chunk_by(|_, next| !is_head(next.word)) {
        if !run_case::<J>(rt, path, case)? {
            count = count.saturating_add(1);
        }
    }
    Ok(count)
}

// Runs the cases of the text of a path, and tells whether all are answered as they are wanted.
fn run_text<J: Judge>(rt: &HostRuntime, path: &str) -> Result<bool, Fault> {
    let text = fs::read_to_string(rt, path)?;
    match run_cases::<J>(rt, path, &text) {
        Ok(0) => {
            println!(rt; "{path}: all as wanted")?;
            Ok(true)
        }
        Ok(count) => {
            println!(rt; "{path}: {count} differ")?;
            Ok(false)
        }
        Err(Fault::Line(line, defect)) => {
            println!(rt; "{path}: line {line} {}", defect.text())?;
            Ok(false)
        }
        Err(fault) => Err(fault),
    }
}

/// Runs the cases of the texts that the program's words name, and writes a line for each text and what differs of each case. The status is
/// 1 where a case differs or a line of a text is wrong, and else 0.
pub fn run_texts<J: Judge>(rt: &HostRuntime) -> Result<ExitCode, Fault> {
    let mut status = 0;
    for path in env::args(rt)?.skip(1) {
        if !run_text::<J>(rt, path.as_str())? {
            status = 1;
        }
    }
    Ok(ExitCode::from(status))
}
