// Lists in words, each item on a line of its own.
ghost use Rattle.std.specs.Prelude.{◌≡◌, ◌++◌, IfOk, OnOk};
ghost use Rattle.std.specs.List.{flat_map};
ghost use Rattle.refusal_words.specs.Listing.{candidate_line, item_line};
ghost use Rattle.xmas_read.specs.Results.{names_of_sources};

use mix_catalog::Catalog;
use std::alloc::{AllocError, Global};
use view_continuations::Candidate;

// Adds the line of an item of a list.
pub fn push_item(lines: &mut Vec<u8>, item: &[u8]) -> Result<(), AllocError>
    ensures { OnOk result (lines.new.items ≡ lines.old.items ++ item_line item.now) }
{
    lines.extend_from_slice(b"  ")?;
    lines.extend_from_slice(item)?;
    lines.push(b'\n')?;
    Ok(())
}

// The names of candidates, a line each.
pub fn candidate_lines(alloc: Global, candidates: &[Candidate]) -> Result<Vec<u8>, AllocError>
    ensures { IfOk result (λ lines. lines.items ≡ flat_map candidate_line candidates.now) }
{
    let mut lines = Vec::new(alloc);
    for candidate in candidates {
        push_item(&mut lines, candidate.name().as_bytes())?;
    }
    Ok(lines)
}

// The names of a catalog's sources, a line each.
pub fn source_lines(alloc: Global, catalog: &Catalog) -> Result<Vec<u8>, AllocError>
    ensures { IfOk result (λ lines. lines.items ≡ flat_map item_line (names_of_sources catalog.now)) }
{
    let mut lines = Vec::new(alloc);
    for number in 0..catalog.len() {
        push_item(&mut lines, catalog.spec(number).name.bytes())?;
    }
    Ok(lines)
}
