// What is said of the file of a source.
ghost use Rattle.std.specs.Prelude.{◌≡◌, true, IfOk};
ghost use Rattle.mix_catalog.specs.Grammar.{file_of};
ghost use Rattle.mix_io.specs.Views.{FilesView, KeepsFiles, ReadsOnly};
ghost use Rattle.mix_place.specs.Causes.{IsCause, IsRead};
ghost use Rattle.mix_place.specs.Documents.{StandsForNone, is_file_of};
ghost use Rattle.source_checks.specs.Beside.{IsBeside};
ghost use Rattle.source_checks.specs.Checks.{SaysFile};
ghost use Rattle.source_checks.specs.Words.{csv_columns};

use crate::beside::{beside, csv_columns};
use crate::texts::fault_of;
use crate::words::{path_of, size_words, source_line};
use mix_catalog::SourceSpec;
use mix_io::{Files, ReadWhole, read_whole};
use mix_place::{FileFault, Refusal, Stop, refused};
use std::alloc::{AllocError, Global};

// The lines of a source whose file is refused for a fault: the refusal's own, and words beside it.
fn refusal_lines(
    alloc: Global,
    spec: &SourceSpec,
    fault: FileFault,
    words: &[u8],
) -> Result<Vec<u8>, AllocError>
    ensures { (old : FilesView) → (new : FilesView) → IsCause (StandsForNone spec.now.kind) old new (file_of spec.now.kind) fault
        → IsBeside old (file_of spec.now.kind) (csv_columns spec.now.kind) fault words.now
        → IfOk result (λ lines. SaysFile old new spec.now lines.items) }
{
    let Stop::Refused(Refusal { line, .. }) = refused(alloc, path_of(spec.kind.file()), fault)
    else {
        return Err(AllocError);
    };
    let mut lines = source_line(alloc, spec, line.as_bytes())?;
    lines.extend_from_slice(words)?;
    Ok(lines)
}

// The lines of a source whose file was read whole.
fn text_lines(alloc: Global, spec: &SourceSpec, bytes: &[u8]) -> Result<Vec<u8>, AllocError>
    requires { is_file_of spec.now.kind ≡ true }
    ensures { (old : FilesView) → (new : FilesView) → IsRead old (file_of spec.now.kind) bytes.now
        → IfOk result (λ lines. SaysFile old new spec.now lines.items) }
{
    match fault_of(alloc, spec, bytes)? {
        None => {
            let words = size_words(alloc, path_of(spec.kind.file()), bytes.len())?;
            source_line(alloc, spec, words.as_bytes())
        }
        Some(fault) => {
            let words = beside(alloc, csv_columns(&spec.kind), bytes, fault)?;
            refusal_lines(alloc, spec, fault, &words)
        }
    }
}

/// The lines of a source whose file is read whole: how many bytes it has, or why it is refused. `Err`: memory.
pub fn file_lines<F: Files>(
    alloc: Global,
    files: &mut F,
    spec: &SourceSpec,
) -> Result<Vec<u8>, AllocError>
    requires { is_file_of spec.now.kind ≡ true }
    ensures keeps { KeepsFiles (F.view files.old) (F.view files.new) }
    ensures only { ReadsOnly (file_of spec.now.kind) (F.view files.old) (F.view files.new) }
    ensures ok { IfOk result (λ lines. SaysFile (F.view files.old) (F.view files.new) spec.now lines.items) }
{
    match read_whole(alloc, files, path_of(spec.kind.file())) {
        Ok(bytes) => text_lines(alloc, spec, &bytes),
        Err(ReadWhole::Failed) => refusal_lines(alloc, spec, FileFault::Unread, b""),
        Err(ReadWhole::TooLong) => refusal_lines(alloc, spec, FileFault::TooLong, b""),
        Err(ReadWhole::OutOfMemory) => Err(AllocError),
    }
}
