// The refusal of a catalog in words.
ghost use Rattle.std.specs.Prelude.{◌≡◌, ◌≤◌, ◌⊎◌, ◌++◌, IfOk, codes, length};
ghost use Rattle.std.specs.List.{flat_map};
ghost use Rattle.catalog_continuations.specs.GoesOn.{IsOneLine};
ghost use Rattle.text_places.specs.Lines.{IsWithoutLf};
ghost use Rattle.refusal_words.specs.Catalog.{BeginsLine, ExplainsCatalog, LacksLine, ListsNext, line_of, word_line};

use crate::listing::push_item;
use catalog_continuations::{FormWord, misfit_place, next_words};
use mix_catalog::CatalogFault;
use std::alloc::{AllocError, Global};
use text_places::place_text;

// The number of the line that a fault names, from 1; 1 where it names none.
fn line_number(fault: CatalogFault) -> usize
    ensures { result ≡ line_of fault }
{
    match fault {
        CatalogFault::Line(n)
        | CatalogFault::Chunk(n)
        | CatalogFault::Columns(n)
        | CatalogFault::ColumnTwice(n)
        | CatalogFault::NameTwice(n)
        | CatalogFault::TooMany(n) => n,
        CatalogFault::OutOfMemory => 1,
    }
}

// Where the line of a number begins, or the end of a text that lacks the line.
fn line_begin(text: &[u8], number: usize) -> usize
    ensures within { result ≤ length text.now }
    ensures line { LacksLine text.now number ⊎ BeginsLine text.now number result }
{
    let mut before = 1;
    for (at, byte) in text.iter().enumerate() {
        if before >= number {
            return at;
        }
        if *byte == b'\n' {
            before += 1;
        }
    }
    text.len()
}

// The line that begins a text, without its LF and a CR before that.
fn first_line(text: &[u8]) -> &[u8]
    ensures within { length result.now ≤ length text.now }
    ensures alone { IsWithoutLf text.now 0 (length result.now) }
    ensures one { IsOneLine result.now }
{
    let end = match text.iter().position(|b| *b == b'\n') {
        Some(end) => end,
        None => text.len(),
    };
    match &text[..end] {
        [line @ .., b'\r'] => line,
        line => line,
    }
}

// The names of words of forms, a line each. `Err`: memory.
fn word_lines(alloc: Global, words: &[FormWord]) -> Result<Vec<u8>, AllocError>
    ensures { IfOk result (λ lines. lines.items ≡ flat_map word_line words.now) }
{
    let mut lines = Vec::new(alloc);
    for word in words {
        push_item(&mut lines, word.name().as_bytes())?;
    }
    Ok(lines)
}

// The names of words of forms, a line each, after a heading. `Err`: memory.
fn listed(alloc: Global, words: &[FormWord]) -> Result<Vec<u8>, AllocError>
    ensures { IfOk result (λ hint. hint.items ≡ codes "here could stand:\n" ++ flat_map word_line words.now) }
{
    let mut hint = Vec::from_slice(alloc, b"here could stand:\n")?;
    let lines = word_lines(alloc, words)?;
    hint.extend_from_slice(&lines)?;
    Ok(hint)
}

// The words with which a front goes on, a line each, after a heading. `Err`: memory.
fn next_lines(alloc: Global, front: &[u8]) -> Result<Vec<u8>, AllocError>
    requires { IsOneLine front.now }
    ensures { IfOk result (λ hint. ListsNext front.now hint.items) }
{
    let words = next_words(alloc, front)?;
    let hint = listed(alloc, &words)?;
    Ok(hint)
}

// How a catalog can be mended whose line fits a form.
fn mending(fault: CatalogFault) -> &'static str {
    match fault {
        CatalogFault::Chunk(_) => "a chunk is a number from 1 to 1000\n",
        CatalogFault::Columns(_) => "a source may have at most 200 columns\n",
        CatalogFault::ColumnTwice(_) => "two columns of this source have the same name\n",
        CatalogFault::NameTwice(_) => "a source before this line has the same name\n",
        CatalogFault::TooMany(_) => "a catalog may have at most 32 sources\n",
        CatalogFault::Line(_) | CatalogFault::OutOfMemory => "",
    }
}

/// A catalog's fault in words: its line and column, that line with a mark below, and what could stand there, or how it can be mended. Of a line that fits no
/// form the mark is below the first word with which it goes on as none of the lines that are tried. Each line ends with LF. `Err`: memory.
pub fn catalog_words(alloc: Global, text: &[u8], fault: CatalogFault) -> Result<Vec<u8>, AllocError>
    ensures { IfOk result (λ words. ExplainsCatalog text.now fault words.items) }
{
    let begin = line_begin(text, line_number(fault));
    let CatalogFault::Line(_) = fault else {
        let mut words = place_text(alloc, text, begin)?;
        words.extend_from_slice(mending(fault).as_bytes())?;
        return Ok(words);
    };
    let line = first_line(&text[begin..]);
    let at = misfit_place(alloc, line)?;
    let mut words = place_text(alloc, text, begin + at)?;
    let hint = next_lines(alloc, &line[..at])?;
    words.extend_from_slice(&hint)?;
    Ok(words)
}
