// The name of a source, from the path of its file.
ghost use Rattle.std.specs.Prelude.{◌≡◌, ◌==◌, ◌-◌, [], IfOk, IfSome, map, get_or, length};
ghost use Rattle.std.specs.List.{slice_split};
ghost use Rattle.catalog_draft.specs.Names.{file_name, fit, source_name, stem};

use mix_tree::Label;
use std::alloc::{AllocError, Global};

// A byte of a source's name for one of a file's name.
fn fit_byte(byte: u8) -> u8
    ensures { result ≡ fit byte }
{
    match byte {
        b'a'..=b'z' | b'A'..=b'Z' | b'0'..=b'9' | b'_' | b'-' => byte,
        _ => b'_',
    }
}

// The pieces of a text between bytes of one kind.
fn pieces(alloc: Global, text: &[u8], apart: u8) -> Result<Vec<&[u8]>, AllocError>
    ensures { IfOk result (λ pieces. map (λ piece. piece.now) pieces.items ≡ slice_split (λ b. b == apart) text.now) }
{
    text.split(|byte| *byte == apart).collect(alloc)
}

// What stands after the last slash of a path.
fn file_name(alloc: Global, path: &[u8]) -> Result<&[u8], AllocError>
    ensures { IfOk result (λ found. found.now ≡ file_name path.now) }
{
    let pieces = pieces(alloc, path, b'/')?;
    match pieces.as_slice() {
        [.., last] => Ok(last),
        [] => Ok(b""),
    }
}

// What stands before the first dot of a file's name.
fn stem(alloc: Global, name: &[u8]) -> Result<&[u8], AllocError>
    ensures { IfOk result (λ found. found.now ≡ stem name.now) }
{
    let pieces = pieces(alloc, name, b'.')?;
    match pieces.as_slice() {
        [first, ..] => Ok(first),
        [] => Ok(b""),
    }
}

// Bytes of a source's name for those of a file's name.
fn fitted(alloc: Global, name: &[u8]) -> Result<Vec<u8>, AllocError>
    ensures { IfOk result (λ fitted. fitted.items ≡ map fit name.now) }
{
    name.iter().map(|byte| fit_byte(*byte)).collect(alloc)
}

/// The name of the source that the file at a path is to be.
pub fn source_name(alloc: Global, path: &[u8]) -> Result<Label, AllocError>
    ensures { IfOk result (λ name. name ≡ source_name path.now) }
{
    let name = fitted(alloc, stem(alloc, file_name(alloc, path)?)?)?;
    if name.is_empty() {
        return Label::of_text(alloc, b"source");
    }
    Label::of_text(alloc, &name)
}
