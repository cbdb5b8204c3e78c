// Documents from their texts, as sources in memory.
ghost use Rattle.std.specs.Prelude.{◌≡◌, ◌<◌, ◌^◌, length, IfOk};
ghost use Rattle.lxp_memory.specs.Memory.{memory_view};

use bracket_text::read_tree;
use lxp_memory::{MemSources, fit_wire};
use mix_tree::{Label, Tree};
use std::alloc::{AllocError, Global};
use std::test::Fail;

/// The tree that a text spells.
pub fn document(alloc: Global, text: &str) -> Result<Tree, Fail> {
    match read_tree(alloc, text.as_bytes()) {
        Ok(tree) => Ok(tree),
        Err(_) => Err(text.into()),
    }
}

/// Documents in memory that come as bytes choose, and fail at the fills that a list names. There are fewer than 2^32.
pub fn sources(
    alloc: Global,
    docs: Vec<Tree>,
    choices: Vec<u8>,
    failing: Vec<u64>,
    forward: bool,
) -> Result<MemSources, Fail>
    requires { length docs.items < 2 ^ 32 }
    ensures { IfOk result (λ m. (memory_view m).count ≡ length docs.items) }
{
    if !fit_wire(&docs) {
        return Err("a document is too large for a wire".into());
    }
    Ok(MemSources::new(alloc, docs, choices, failing, forward)?)
}

/// One document in memory that comes a child at a time.
pub fn source(alloc: Global, text: &str) -> Result<MemSources, Fail>
    ensures { IfOk result (λ m. (memory_view m).count ≡ 1) }
{
    let docs = vec![in alloc; document(alloc, text)?]?;
    sources(alloc, docs, Vec::new(alloc), Vec::new(alloc), true)
}

/// Labels, one after another.
pub fn joined(alloc: Global, labels: &[Label]) -> Result<Vec<u8>, AllocError> {
    let mut out = Vec::new(alloc);
    for label in labels {
        out.extend_from_slice(label.bytes())?;
    }
    Ok(out)
}
