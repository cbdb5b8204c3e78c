// A path that leads nowhere: for which variable, and from where.
ghost use Rattle.std.specs.Prelude.{◌≡◌, ◌++◌, IfOk, OnOk, slice_get, codes};
ghost use Rattle.path_words.specs.Told.{fails_text, has_nodes, head_line, nowhere_text, source_text, start_text};

use browse_visit::Sorts;
use mix_tree::Label;
use path_expr::{Path, write_path};
use std::alloc::{AllocError, Global};
use unsatisfiable_paths::UnsatisfiablePath;

// Adds the name of a source.
fn push_source(line: &mut Vec<u8>, names: &[Label], source: u32) -> Result<(), AllocError>
    ensures { OnOk result (line.new.items ≡ line.old.items ++ source_text (slice_get names.now source)) }
{
    if let Some(name) = names.get(source as usize) {
        line.extend_from_slice(name.bytes())?;
    }
    Ok(())
}

// What the nodes of sorts are, as it is written for people.
fn start_text(from: Sorts) -> &'static str
    ensures { result.now ≡ start_text from }
{
    if from.document {
        "the document"
    } else if from.root {
        "the root"
    } else if from.row {
        "a row"
    } else if from.value || from.maybe_value {
        "a column"
    } else {
        "a value"
    }
}

/// Whether there may be nodes of some sort.
pub fn has_nodes(from: Sorts) -> bool
    ensures { result ≡ has_nodes from }
{
    from.document || from.root || from.row || from.value || from.maybe_value || from.leaf
}

// From where a path leads nowhere.
fn nowhere_text(
    alloc: Global,
    sources: &[Label],
    unsatisfiable: UnsatisfiablePath,
) -> Result<Vec<u8>, AllocError>
    ensures { IfOk result (λ text. text.items ≡ nowhere_text unsatisfiable.from (slice_get sources.now unsatisfiable.source)) }
{
    let mut text = Vec::from_slice(alloc, b" leads nowhere from ")?;
    text.extend_from_slice(start_text(unsatisfiable.from).as_bytes())?;
    text.extend_from_slice(b" of ")?;
    push_source(&mut text, sources, unsatisfiable.source)?;
    Ok(text)
}

// How a path fails: from where it leads nowhere, or that there is no node from which it could lead.
fn fails_text(
    alloc: Global,
    sources: &[Label],
    unsatisfiable: UnsatisfiablePath,
) -> Result<Vec<u8>, AllocError>
    ensures { IfOk result (λ text. text.items ≡ fails_text unsatisfiable.from (slice_get sources.now unsatisfiable.source)) }
{
    if has_nodes(unsatisfiable.from) {
        nowhere_text(alloc, sources, unsatisfiable)
    } else {
        Vec::from_slice(alloc, b" begins at a variable that has no value")
    }
}

/// The line that says that the path of a variable leads nowhere: which path, and from where. `Err`: memory.
pub fn head_line(
    alloc: Global,
    sources: &[Label],
    unsatisfiable: UnsatisfiablePath,
    path: &Path,
    name: &Label,
) -> Result<Vec<u8>, AllocError>
    ensures { IfOk result (λ line. line.items ≡ head_line sources.now unsatisfiable path.now name.now) }
{
    let mut line = Vec::from_slice(alloc, b"no value for $")?;
    line.extend_from_slice(name.bytes())?;
    line.extend_from_slice(b": the path ")?;
    let text = write_path(alloc, path)?;
    line.extend_from_slice(&text)?;
    let failure = fails_text(alloc, sources, unsatisfiable)?;
    line.extend_from_slice(&failure)?;
    line.push(b'\n')?;
    Ok(line)
}
