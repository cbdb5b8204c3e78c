//! The program `mixq`: the top calls over the files of the system, tables and schemas of SQLite files, sources of other machines behind two files each,
//! standard input and standard output.
#![tactic(auto)]

use far_links::FarLinks;
use file_dial::FileDial;
use file_link::FileLink;
use mix_describe::mixq_describe;
use mix_explain::mixq_explain;
use mix_io::{OsFiles, StdInput, StdSink, Streams};
use mix_reach::Stores;
use mix_top::{mixq_over, mixq_serve_over};
use sqlite_tables::{SqliteSchemas, SqliteTables};
use std::alloc::Global;
use std::process::ExitCode;
use std::{env, io};

// The words after the program's name.
fn words(rt: &HostRuntime) -> io::Result<Vec<String>> {
    let mut words = Vec::new(rt.alloc());
    for word in env::args(rt)?.skip(1) {
        words.push(word)?;
    }
    Ok(words)
}

// The status of a top call, that of serving where the first word is `serve`, and that of explanations where it is `explain`. It stands apart, since what
// these calls promise would make the proof of `main` long.
fn answer(
    alloc: Global,
    words: &[String],
    files: &mut OsFiles,
    mut stores: Stores<SqliteTables, FarLinks<FileLink, FileDial>>,
    streams: &mut Streams<StdInput, StdSink>,
) -> u8 {
    let (status, _) = match words {
        [word, ..] if word.as_str() == "explain" => {
            let tables = &mut stores.tables;
            (
                mixq_explain(alloc, words, files, tables, &mut streams.out),
                stores,
            )
        }
        [word, ..] if word.as_str() == "serve" => {
            mixq_serve_over(alloc, words, files, stores, streams)
        }
        _ => mixq_over(alloc, words, files, stores, streams),
    };
    status
}

// The status of a description, which asks no stores and no input.
fn describe(rt: HostRuntime, words: &[String]) -> u8 {
    let mut files = OsFiles::new(rt);
    let mut schemas = SqliteSchemas::new(rt);
    let mut out = StdSink::new(rt);
    mixq_describe(rt.alloc(), words, &mut files, &mut schemas, &mut out)
}

// Whether the first word asks for a description.
fn asks_description(words: &[String]) -> bool {
    matches!(words, [word, ..] if word.as_str() == "describe")
}

// Where memory runs out before the top call, the status is 6. A word that is no text makes the words a form of none, as no
// words at all do.
fn main(rt: HostRuntime) -> ExitCode {
    let words = match words(&rt) {
        Ok(words) => words,
        Err(error) if error.kind() == io::ErrorKind::OutOfMemory => return ExitCode::from(6),
        Err(_) => Vec::new(rt.alloc()),
    };
    if asks_description(&words) {
        return ExitCode::from(describe(rt, &words));
    }
    let alloc = rt.alloc();
    let mut files = OsFiles::new(rt);
    let mut streams = Streams {
        input: StdInput::new(rt),
        out: StdSink::new(rt),
    };
    let stores = Stores {
        tables: SqliteTables::new(rt, alloc),
        fars: FarLinks::new(alloc, FileDial::new(rt)),
    };
    ExitCode::from(answer(alloc, &words, &mut files, stores, &mut streams))
}
