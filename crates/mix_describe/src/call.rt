// The top call of `describe`.
ghost use Rattle.std.specs.Prelude.{◌≡◌, ◌≤◌, Some, None, IfSome, map, string_bytes};
ghost use Rattle.mix_io.specs.Views.{FilesView, SinkView, KeepsFiles};
ghost use Rattle.mix_run.specs.Ends.{Ends};
ghost use Rattle.mix_place.specs.Reading.{ReadsAmong};
ghost use Rattle.schema_keep.specs.Views.{KeepsSchemas, SchemasView};
ghost use Rattle.mix_describe.specs.Describes.{Describes};
ghost use Rattle.mix_describe.specs.Words.{DescribeMayRead, DescribeWordsEnd, described_of};

use crate::described::Described;
use crate::file::described;
use mix_io::{Files, Sink};
use mix_place::Stop;
use mix_run::write_lines;
use mix_top::refuse_words;
use schema_keep::Schemas;
use std::alloc::Global;

// The file that is to be described, where words ask for that.
fn read_describe(words: &[String]) -> Option<&str>
    ensures none { result ≡ None → described_of (map string_bytes words.now) ≡ None }
    ensures some { IfSome result (λ path. described_of (map string_bytes words.now) ≡ Some path.now) }
{
    match words {
        [word, path] if word.as_str() == "describe" => Some(path.as_str()),
        _ => None,
    }
}

// Writes the lines of a description, and answers its status: 5 where the sink failed, and 6 where memory ran out.
fn write_described<K: Sink>(alloc: Global, described: &Described, out: &mut K) -> u8
    ensures ends { Ends (λ status lines. (status ≡ described.now.status) × (lines ≡ described.now.lines.items)) (K.view out.old) (K.view out.new) result }
    ensures count { (K.view out.old).faults ≤ (K.view out.new).faults }
{
    match write_lines(alloc, &described.lines, out) {
        Ok(()) => described.status,
        Err(Stop::SinkFailed) => 5,
        Err(Stop::OutOfMemory) | Err(Stop::Refused(_)) => 6,
    }
}

// Describes a file.
fn describe<F: Files, C: Schemas, K: Sink>(
    alloc: Global,
    path: &str,
    files: &mut F,
    schemas: &mut C,
    out: &mut K,
) -> u8
    ensures ends { let Course = Describes (F.view files.old) (F.view files.new) (C.view schemas.old) (C.view schemas.new) path.now in
        Ends Course (K.view out.old) (K.view out.new) result }
    ensures reads { ReadsAmong (λ p. p ≡ path.now) (F.view files.old) (F.view files.new) }
    ensures keeps { KeepsFiles (F.view files.old) (F.view files.new) }
    ensures keeps_schemas { KeepsSchemas (C.view schemas.old) (C.view schemas.new) }
    ensures count { (K.view out.old).faults ≤ (K.view out.new).faults }
{
    match described(alloc, path, files, schemas) {
        Ok(described) => write_described(alloc, &described, out),
        Err(_) => 6,
    }
}

/// Does what words ask for that begin with `describe`, and answers the exit status: `describe FILE` writes the lines of a catalog for a file, to be
/// edited: where it begins as a database of SQLite does, for each of its tables, and else, as a CSV file, for its header. Lines that begin with `#` say
/// what no line of a catalog can say. All lines go to `out`, each by one write.
///
/// Status 0: the lines say what the file has. 2: the words are of no form. 3: the file has no header, or is no database that can be read. 4: the file
/// can't be read. 5: `out` failed. 6: memory ran out. 7: the file is no database, and is longer than 67,108,864 bytes. A call that ends with 5 or 6 has
/// written a prefix of its lines (docs/FORMATS.md, "Descriptions").
pub fn mixq_describe<F: Files, C: Schemas, K: Sink>(
    alloc: Global,
    words: &[String],
    files: &mut F,
    schemas: &mut C,
    out: &mut K,
) -> u8
    // What was written, and why the status is what it is.
    ensures ends { let asked = described_of (map string_bytes words.now) in
        DescribeWordsEnd asked (F.view files.old) (F.view files.new) (C.view schemas.old) (C.view schemas.new) (K.view out.old) (K.view out.new) result }

    // Which files it may have read: the one that is described.
    ensures reads { ReadsAmong (DescribeMayRead (described_of (map string_bytes words.now))) (F.view files.old) (F.view files.new) }

    // The contents of all files and the tables of all schemas stay, and no count falls.
    ensures keeps { KeepsFiles (F.view files.old) (F.view files.new) }
    ensures keeps_schemas { KeepsSchemas (C.view schemas.old) (C.view schemas.new) }
    ensures count { (K.view out.old).faults ≤ (K.view out.new).faults }
{
    match read_describe(words) {
        Some(path) => describe(alloc, path, files, schemas, out),
        None => refuse_words(alloc, out),
    }
}
