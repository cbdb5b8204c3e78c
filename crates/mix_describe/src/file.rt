// What a description of a file comes to, by what the file begins with.
ghost use Rattle.std.specs.Prelude.{◌≡◌, IfOk};
ghost use Rattle.mix_io.specs.Views.{KeepsFiles, ReadsOnly};
ghost use Rattle.schema_keep.specs.Views.{KeepsSchemas};
ghost use Rattle.mix_describe.specs.Described.{DescribesText};
ghost use Rattle.mix_describe.specs.Describes.{Describes, DescribesTables};

use crate::described::{Described, refusal, schema_refusal};
use crate::reading::{Content, read_content};
use catalog_draft::{describe_csv, describe_tables};
use mix_io::{Files, ReadWhole};
use mix_place::FileFault;
use mix_tree::Label;
use schema_keep::{SchemaFault, Schemas};
use std::alloc::{AllocError, Global};

// The description of a CSV file, by its bytes. `Err`: memory.
fn described_csv(alloc: Global, path: &str, bytes: &[u8]) -> Result<Described, AllocError>
    ensures { IfOk result (DescribesText path.now bytes.now) }
{
    let label = Label::of_text(alloc, path.as_bytes())?;
    match describe_csv(alloc, &label, bytes) {
        Ok(lines) => Ok(Described { status: 0, lines }),
        Err(fault) => refusal(alloc, path, FileFault::Csv(fault)),
    }
}

// The description of the tables of a database. `Err`: memory.
fn described_tables<C: Schemas>(
    alloc: Global,
    path: &str,
    schemas: &mut C,
) -> Result<Described, AllocError>
    ensures keeps { KeepsSchemas (C.view schemas.old) (C.view schemas.new) }
    ensures ok { IfOk result (λ d. DescribesTables (C.view schemas.old) (C.view schemas.new) path.now d.status d.lines.items) }
{
    match schemas.tables(alloc, path) {
        Ok(tables) => {
            let label = Label::of_text(alloc, path.as_bytes())?;
            let lines = describe_tables(alloc, &label, &tables)?;
            Ok(Described { status: 0, lines })
        }
        Err(SchemaFault::Failed(why)) => schema_refusal(alloc, path, why),
        Err(SchemaFault::OutOfMemory) => Err(AllocError),
    }
}

/// The description of a file: of its tables where it begins as a database does, and else of its header. `Err`: memory.
pub fn described<F: Files, C: Schemas>(
    alloc: Global,
    path: &str,
    files: &mut F,
    schemas: &mut C,
) -> Result<Described, AllocError>
    ensures keeps { KeepsFiles (F.view files.old) (F.view files.new) }
    ensures others { ReadsOnly path.now (F.view files.old) (F.view files.new) }
    ensures keeps_schemas { KeepsSchemas (C.view schemas.old) (C.view schemas.new) }
    ensures ok { IfOk result (λ d. Describes (F.view files.old) (F.view files.new) (C.view schemas.old) (C.view schemas.new) path.now d.status d.lines.items) }
{
    match read_content(alloc, files, path) {
        Ok(Content::Database) => described_tables(alloc, path, schemas),
        Ok(Content::Text(bytes)) => described_csv(alloc, path, &bytes),
        Err(ReadWhole::Failed) => refusal(alloc, path, FileFault::Unread),
        Err(ReadWhole::TooLong) => refusal(alloc, path, FileFault::TooLong),
        Err(ReadWhole::OutOfMemory) => Err(AllocError),
    }
}
