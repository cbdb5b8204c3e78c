// Reading the path that a text spells.
ghost use Rattle.std.specs.Prelude.{◌≡◌, None, IfOk, IfSome, IfNone, IsUtf8};
ghost use Rattle.path_expr.specs.Form.{Form};
ghost use Rattle.path_expr.specs.Grammar.{Spelled, Writes};
ghost use Rattle.path_expr.specs.Results.{Spells, SpellsWithin, Answers, IsPath};

use crate::PathFault;
use crate::build::{Builder, Level, Spot, build_byte, build_end};
use crate::path::Path;
use crate::positions::count_positions;
use crate::scan::scan_path;
use std::alloc::{AllocError, Global};

// The most label positions that a path may have.
const POSITIONS: usize = 120;

// Builds the path that a text spells.
fn build_path(alloc: Global, text: &[u8]) -> Result<Option<Path>, AllocError>
    requires { IsUtf8 text.now }
    ensures spells { IfOk result (λ found. IfSome found (λ v. Spells text.now v)) }
    ensures none { IfOk result (λ found. IfNone found ((p : Spelled) → Writes text.now p → ⊥)) }
{
    let mut builder = Builder {
        here: Level::new(alloc),
        outer: Vec::new(alloc),
        spot: Spot::Start,
    };
    for at in 0..text.len() {
        let Some(next) = build_byte(alloc, builder, text[at])? else {
            return Ok(None);
        };
        builder = next;
    }
    build_end(alloc, builder)
}

// Reads a text that is UTF-8.
fn read(alloc: Global, text: &[u8]) -> Result<Path, PathFault>
    requires { IsUtf8 text.now }
    ensures { Answers text.now result }
{
    if let Some(at) = scan_path(text)? {
        return Err(PathFault::TooDeep(at));
    }
    let Some(path) = build_path(alloc, text)? else {
        unreachable!()
    };
    let count = count_positions(&path);
    if count > POSITIONS {
        return Err(PathFault::TooMany(count));
    }
    Ok(path)
}

/// The path that a text spells.
///
/// # Errors
///
/// Places count bytes from the beginning of the text. Of the causes that a text has, the first of these is answered:
///
/// - `NotUtf8` with the length of the longest prefix that is UTF-8.
/// - `Unexpected` with the first byte with which no path's text goes on.
/// - `Ends` where a path's text goes on from the end.
/// - `TooDeep` with the first parenthesis that is open inside 100 others.
/// - `TooMany` with the count of label positions, where it is above 120. Each name, quoted label and `_` is one.
///
/// `OutOfMemory` can come with any text.
pub fn read_path(alloc: Global, text: &[u8]) -> Result<Path, PathFault>
    // The answer is that of the text: the path that it spells, or why none is read.
    ensures answers { Answers text.now result }

    // What is spelled within the limits is read, unless memory runs out.
    ensures only { (v : Form) → IsUtf8 text.now → SpellsWithin text.now v → IsPath result v }
{
    match str::from_utf8(text) {
        Ok(_) => read(alloc, text),
        Err(error) => Err(PathFault::NotUtf8(error.valid_up_to())),
    }
}
