//! Runs the cases of texts, each a command over files, tables, schemas, an input and a sink in memory, and tells which are answered as
//! they are wanted.
#![tactic(auto)]

mod fails;
mod far;
mod forms;
mod judge;
mod run;
mod schemas;
mod setting;

use case_text::{Fault, Judge, Part, check_parts, run_texts};
use std::alloc::Global;
use std::process::ExitCode;

// Cases of commands.
struct Commands;

impl Judge for Commands {
    fn differing(alloc: Global, parts: &[Part<'_>]) -> Result<Option<String>, Fault> {
        check_parts(parts, &forms::FORMS)?;
        judge::judge(alloc, parts)
    }
}

// Runs the cases of the texts that the program's words name.
fn main(rt: HostRuntime) -> Result<ExitCode, Fault> {
    run_texts::<Commands>(&rt)
}
