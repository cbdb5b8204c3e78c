// Lines that are tried: a front, and the words of a form that are left.
ghost use Rattle.std.specs.Prelude.{◌≡◌, ◌++◌, IfOk, OnOk};
ghost use Rattle.catalog_continuations.specs.GoesOn.{GoesOnWith, IsLine, IsOneLine, Tells, spelled, word_text};

use crate::FormWord;
use mix_catalog::{CatalogFault, read_catalog};
use std::alloc::{AllocError, Global};

// Adds a word in its spelling, and a blank.
fn push_word(line: &mut Vec<u8>, word: FormWord) -> Result<(), AllocError>
    ensures { OnOk result (line.new.items ≡ line.old.items ++ word_text word) }
{
    line.extend_from_slice(word.spelling().as_bytes())?;
    line.push(b' ')?;
    Ok(())
}

// Words in their spellings, a blank after each.
fn words_text(alloc: Global, words: &[FormWord]) -> Result<Vec<u8>, AllocError>
    ensures { IfOk result (λ text. text.items ≡ spelled words.now) }
{
    let mut text = Vec::new(alloc);
    for word in words {
        push_word(&mut text, *word)?;
    }
    Ok(text)
}

// The text of a line: a front, a separator, and words in their spellings, a blank after each.
fn line_with(
    alloc: Global,
    front: &[u8],
    between: &[u8],
    rest: &[FormWord],
) -> Result<Vec<u8>, AllocError>
    ensures { IfOk result (λ line. line.items ≡ front.now ++ (between.now ++ spelled rest.now)) }
{
    let mut line = Vec::from_slice(alloc, front)?;
    line.extend_from_slice(between)?;
    let words = words_text(alloc, rest)?;
    line.extend_from_slice(&words)?;
    Ok(line)
}

// Whether a text without LF is a line that a catalog may have. `Err`: memory.
fn is_line(alloc: Global, line: &[u8]) -> Result<bool, AllocError>
    requires { IsOneLine line.now }
    ensures { IfOk result (Tells (IsLine line.now)) }
{
    match read_catalog(alloc, line) {
        Ok(catalog) => {
            // The catalog is given to `drop`, so that how its parts are dropped is proved once.
            drop(catalog);
            Ok(true)
        }
        Err(CatalogFault::Line(_)) => Ok(false),
        Err(CatalogFault::OutOfMemory) => Err(AllocError),
        Err(CatalogFault::Chunk(_)) => Ok(true),
        Err(CatalogFault::Columns(_)) => Ok(true),
        Err(CatalogFault::ColumnTwice(_)) => Ok(true),
        Err(CatalogFault::NameTwice(_)) => Ok(true),
        Err(CatalogFault::TooMany(_)) => Ok(true),
    }
}

/// Whether a front and then words are a line that a catalog may have; the front may end inside a label between quotes. `Err`: memory.
pub fn goes_on_with(alloc: Global, front: &[u8], rest: &[FormWord]) -> Result<bool, AllocError>
    requires { IsOneLine front.now }
    ensures { IfOk result (Tells (GoesOnWith front.now rest.now)) }
{
    let plain = line_with(alloc, front, b" ", rest)?;
    if is_line(alloc, &plain)? {
        return Ok(true);
    }
    let quoted = line_with(alloc, front, b" \" ", rest)?;
    is_line(alloc, &quoted)
}
