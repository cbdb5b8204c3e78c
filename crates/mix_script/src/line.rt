// The step of a line.
ghost use Rattle.std.specs.Prelude.{◌≡◌, ◌<◌, ℕ, List, false, IfOk, IfSome, IsTrue, IsUtf8, length, option_map, take, true};
ghost use Rattle.mix_words.specs.Words.{is_name, words_of};
ghost use Rattle.mix_words.specs.Places.{ends_blank};
ghost use Rattle.mix_script.specs.LineWords.{AreWords, NoClientFirst};
ghost use Rattle.mix_script.specs.Lines.{before_colon, client_named, client_of, select_at, act_in, step_with, step_in, utf8_step};

use crate::forms::{read_act, read_select};
use crate::words::{LineWords, first_word, is_wordless, line_words};
use crate::{Act, Forms, Step};
use bracket_text::is_utf8_text;
use mix_tree::{Label, LabelRead, read_label};
use mix_words::places::word_place;
use mix_words::words::is_script_name;
use std::alloc::{AllocError, Global};

// How many words stand before the label of a `select`.
const BEFORE_LABEL: usize = 4;

// What stands before a colon that is the last byte of a word.
fn before_colon(word: &[u8]) -> Option<&[u8]>
    ensures { option_map (λ name. name.now) result ≡ before_colon word.now }
{
    match word {
        [name @ .., b':'] => Some(name),
        _ => None,
    }
}

// The client that a word names: a script name with a colon at once after it.
fn client_in(word: &[u8]) -> Option<&[u8]>
    ensures client { option_map (λ name. name.now) result ≡ client_named word.now }
    ensures name { IfSome result (λ name. IsTrue (is_name name.now)) }
{
    let name = before_colon(word)?;
    if is_script_name(name) {
        return Some(name);
    }
    None
}

// The client of a prefix.
fn read_client(prefix: &[u8]) -> Option<&[u8]>
    ensures client { option_map (λ name. name.now) result ≡ client_of (words_of prefix.now) }
    ensures name { IfSome result (λ name. IsTrue (is_name name.now)) }
{
    let (word, after) = first_word(prefix)?;
    if !is_wordless(after) {
        return None;
    }
    client_in(word)
}

// What a line asks for whose label begins at a place.
fn read_select_at(alloc: Global, line: &[u8], at: usize) -> Result<Option<Act>, AllocError>
    requires utf8 { IsUtf8 line.now }
    requires inside { at < length line.now }
    requires apart { IsTrue (ends_blank true (take at line.now)) }
    ensures { IfOk result (λ act. act ≡ select_at line.now at) }
{
    let LabelRead::Got { label, end } = read_label(alloc, line, at)? else {
        return Ok(None);
    };
    if !is_wordless(&line[end..]) {
        return Ok(None);
    }
    read_select(alloc, &line[..at], label)
}

// What a line without a prefix asks for, which has these words.
fn read_act_in(
    alloc: Global,
    line: &[u8],
    words: LineWords,
    forms: Forms,
) -> Result<Option<Act>, AllocError>
    requires utf8 { IsUtf8 line.now }
    requires words { AreWords (words_of line.now) words }
    ensures { IfOk result (λ act. act ≡ act_in forms line.now) }
{
    if let Some(act) = read_act(alloc, words, forms)? {
        return Ok(Some(act));
    }
    match word_place(line, BEFORE_LABEL) {
        Some(at) => read_select_at(alloc, line, at),
        None => Ok(None),
    }
}

// The step of a client whose prefix stands before a line, which has these words.
fn read_step(
    alloc: Global,
    client: &[u8],
    line: &[u8],
    words: LineWords,
    forms: Forms,
) -> Result<Option<Step>, AllocError>
    requires client { IsUtf8 client.now }
    requires line { IsUtf8 line.now }
    requires words { AreWords (words_of line.now) words }
    ensures { IfOk result (λ step. step ≡ option_map (step_with client.now) (act_in forms line.now)) }
{
    let Some(act) = read_act_in(alloc, line, words, forms)? else {
        return Ok(None);
    };
    let client = Label::of_text(alloc, client)?;
    Ok(Some(Step { client, act }))
}

// The step of a line, after a client's prefix or without one.
fn read_prefixed(
    alloc: Global,
    line: &[u8],
    words: LineWords,
    forms: Forms,
) -> Result<Option<Step>, AllocError>
    requires utf8 { IsUtf8 line.now }
    requires words { AreWords (words_of line.now) words }
    ensures { IfOk result (λ step. step ≡ step_in forms line.now) }
{
    if let Some(at) = word_place(line, 1) {
        if let Some(client) = read_client(&line[..at]) {
            let line = &line[at..];
            return read_step(alloc, client, line, line_words(line), forms);
        }
    }
    read_step(alloc, b"", line, words, forms)
}

// Whether the first word may be a client's prefix.
fn may_be_prefixed(words: LineWords) -> bool
    ensures { result ≡ false → (ws : List (List ℕ)) → AreWords ws words.entry → NoClientFirst ws }
{
    match words {
        LineWords::Two(word, _) => client_in(word).is_some(),
        LineWords::Three(word, _, _) => client_in(word).is_some(),
        LineWords::Four(word, _, _, _) => client_in(word).is_some(),
        LineWords::Other => true,
    }
}

// The step of a line that is UTF-8.
fn read_utf8(alloc: Global, line: &[u8], forms: Forms) -> Result<Option<Step>, AllocError>
    requires { IsUtf8 line.now }
    ensures { IfOk result (λ step. step ≡ step_in forms line.now) }
{
    let words = line_words(line);
    if may_be_prefixed(words) {
        return read_prefixed(alloc, line, words, forms);
    }
    read_step(alloc, b"", line, words, forms)
}

/// The step of a line that is not passed over; `None` where it is not UTF-8 or fits no form that lines may have (docs/FORMATS.md, "Scripts").
pub fn line_step(alloc: Global, line: &[u8], forms: Forms) -> Result<Option<Step>, AllocError>
    ensures { IfOk result (λ step. step ≡ utf8_step forms line.now) }
{
    if !is_utf8_text(line) {
        return Ok(None);
    }
    read_utf8(alloc, line, forms)
}
