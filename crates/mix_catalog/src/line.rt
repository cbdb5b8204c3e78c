// The source that a line spells.
ghost use Rattle.std.specs.Prelude.{◌≡◌, ◌<◌, IfOk, IsTrue, IsUtf8, MatchOption, length, take, true};
ghost use Rattle.mix_words.specs.Places.{ends_blank};
ghost use Rattle.mix_words.specs.Words.{words_of};
ghost use Rattle.mix_catalog.specs.Forms.{prefix_of};
ghost use Rattle.mix_catalog.specs.Seen.{source_at};
ghost use Rattle.mix_catalog.specs.Grammar.{Spells, SpellsNone};

use crate::SourceSpec;
use crate::after::read_after;
use crate::form::{Prefix, read_prefix};
use mix_tree::{LabelRead, read_label};
use mix_words::places::word_place;
use mix_words::words::cut_words;
use std::alloc::{AllocError, Global};
use std::str;

// How many words stand before the file.
const FRONT: usize = 3;

// What the words before the file say.
fn read_words(alloc: Global, prefix: &[u8]) -> Result<Option<Prefix>, AllocError>
    ensures { IfOk result (λ found. found ≡ prefix_of (words_of prefix.now)) }
{
    let words = cut_words(alloc, prefix)?;
    read_prefix(alloc, &words)
}

// The source of a line whose file begins at a place.
fn read_at(alloc: Global, line: &[u8], at: usize) -> Result<Option<SourceSpec>, AllocError>
    requires utf8 { IsUtf8 line.now }
    requires inside { at < length line.now }
    requires apart { IsTrue (ends_blank true (take at line.now)) }
    ensures { IfOk result (λ source. source ≡ source_at line.now at) }
{
    let Some(prefix) = read_words(alloc, &line[..at])? else {
        return Ok(None);
    };
    let LabelRead::Got { label: file, end } = read_label(alloc, line, at)? else {
        return Ok(None);
    };
    read_after(alloc, prefix, file, &line[end..])
}

/// The source that a line spells; `None` where it is not UTF-8 or fits no form (docs/FORMATS.md, "Catalogs").
pub fn read_source(alloc: Global, line: &[u8]) -> Result<Option<SourceSpec>, AllocError>
    ensures { IfOk result (λ found. MatchOption found (SpellsNone line.now) (Spells line.now)) }
{
    if str::from_utf8(line).is_err() {
        return Ok(None);
    }
    let Some(at) = word_place(line, FRONT) else {
        return Ok(None);
    };
    read_at(alloc, line, at)
}
