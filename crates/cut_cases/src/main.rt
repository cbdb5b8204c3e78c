//! Runs the cases of texts, each a view, a walk or a source over documents that come in pieces, and tells which are answered as they are
//! wanted.
#![tactic(auto)]

mod fails;
mod forms;
mod given;
mod judge;
mod mount;
mod plain;
mod run;
mod setting;
mod watched;

use case_text::{Fault, Judge, Part, check_parts, run_texts};
use std::alloc::Global;
use std::process::ExitCode;

// Cases of documents that come in pieces.
struct CutDocuments;

impl Judge for CutDocuments {
    fn differing(alloc: Global, parts: &[Part<'_>]) -> Result<Option<String>, Fault> {
        check_parts(parts, &forms::FORMS)?;
        judge::judge(alloc, parts)
    }
}

// Runs the cases of the texts that the program's words name.
fn main(rt: HostRuntime) -> Result<ExitCode, Fault> {
    run_texts::<CutDocuments>(&rt)
}
