// The lines that are written.
ghost use Rattle.std.specs.Prelude.{◌≡◌, ◌++◌, IfOk, string_bytes};
ghost use Rattle.source_checks.specs.Words.{line_of, size_words};

use mix_catalog::SourceSpec;
use mix_tree::Label;
use std::alloc::{AllocError, Global};
use std::str;

/// The path that a label is.
pub fn path_of(file: &Label) -> &str
    ensures { result.now ≡ file.now }
{
    match str::from_utf8(file.bytes()) {
        Ok(path) => path,
        Err(_) => unreachable!(),
    }
}

/// The lines of a source: its name, and words that end with LF.
pub fn source_line(alloc: Global, spec: &SourceSpec, words: &[u8]) -> Result<Vec<u8>, AllocError>
    ensures { IfOk result (λ line. line.items ≡ line_of spec.now words.now) }
{
    let mut line = Vec::from_slice(alloc, b"  ")?;
    line.extend_from_slice(spec.name.bytes())?;
    line.extend_from_slice(b": ")?;
    line.extend_from_slice(words)?;
    Ok(line)
}

/// The words that say how many bytes the file of a path has.
pub fn size_words(alloc: Global, path: &str, count: usize) -> Result<String, AllocError>
    ensures { IfOk result (λ words. string_bytes words ≡ size_words path.now count) }
{
    format!(in alloc; "{path} has {count} bytes\n")
}
