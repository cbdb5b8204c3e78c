// What the words of a catalog's line say.
ghost use Rattle.std.specs.Prelude.{◌≡◌, IfOk, IsTrue, map};
ghost use Rattle.std.specs.List.{list_all};
ghost use Rattle.mix_tree.specs.Names.{is_name_byte};
ghost use Rattle.mix_words.specs.Words.{ends_word};
ghost use Rattle.mix_catalog.specs.Forms.{is_source_name, form_of, prefix_form, prefix_of, digit_of, number_of, chunk_form, chunk_of, cutting_form, cutting_of, is_columns_word, number_word};

use mix_tree::Label;
use mix_words::words::is_blank_byte;
use std::alloc::{AllocError, Global};

/// The forms of a line.
#[derive(Clone, Copy)]
pub enum Form {
    Bracket,
    Csv,
    Table,
    Remote,
    Json,
    View,
}

/// What stands before the file of a line.
#[derive(Drop)]
pub struct Prefix {
    pub name: Label,
    pub form: Form,
}

/// How a document is cut: the most children that a fill gives, and whether each comes whole.
#[derive(Clone, Copy)]
pub struct Cutting {
    pub chunk: u32,
    pub deep: bool,
}

// Whether a byte may stand in a source's name: an ASCII letter, a digit, `_` or `-`.
fn is_in_name(byte: u8) -> bool
    ensures { result ≡ is_name_byte byte }
{
    matches!(byte, b'a'..=b'z' | b'A'..=b'Z' | b'0'..=b'9' | b'_' | b'-')
}

// Whether each byte may stand in a source's name.
fn are_in_name(bytes: &[u8]) -> bool
    ensures { result ≡ list_all is_name_byte bytes.now }
{
    bytes.iter().all(|b| is_in_name(*b))
}

// Whether a word may name a source.
fn may_be_name(word: &[u8]) -> bool
    ensures { result ≡ is_source_name word.now }
{
    !word.is_empty() && are_in_name(word)
}

// The form that a word names.
fn read_form(word: &[u8]) -> Option<Form>
    ensures { result ≡ form_of word.now }
{
    if word == b"bracket".as_slice() {
        Some(Form::Bracket)
    } else if word == b"csv".as_slice() {
        Some(Form::Csv)
    } else if word == b"table".as_slice() {
        Some(Form::Table)
    } else if word == b"remote".as_slice() {
        Some(Form::Remote)
    } else if word == b"json".as_slice() {
        Some(Form::Json)
    } else if word == b"view".as_slice() {
        Some(Form::View)
    } else {
        None
    }
}

// What `source`, a name and the word of a form say.
fn read_prefix_of(
    alloc: Global,
    source: &[u8],
    name: &[u8],
    form: &[u8],
) -> Result<Option<Prefix>, AllocError>
    ensures { IfOk result (λ prefix. prefix ≡ prefix_form source.now name.now form.now) }
{
    if source != b"source".as_slice() || !may_be_name(name) {
        return Ok(None);
    }
    let Some(form) = read_form(form) else {
        return Ok(None);
    };
    let name = Label::of_text(alloc, name)?;
    Ok(Some(Prefix { name, form }))
}

/// What the words before the file say: `source`, the name, the word of a form. `None` where they are others.
pub fn read_prefix(alloc: Global, words: &[&[u8]]) -> Result<Option<Prefix>, AllocError>
    ensures { IfOk result (λ prefix. prefix ≡ prefix_of (map (λ word. word.now) words.now)) }
{
    match words {
        [source, name, form] => read_prefix_of(alloc, source, name, form),
        _ => Ok(None),
    }
}

// The number that a digit means.
fn read_digit(byte: u8) -> Option<u32>
    ensures { result ≡ digit_of byte }
{
    match byte {
        b'0'..=b'9' => Some((byte - b'0') as u32),
        _ => None,
    }
}

// The number of 1 to 9 digits.
fn read_number(word: &[u8]) -> Option<u32>
    ensures { result ≡ number_of word.now }
{
    if word.is_empty() || word.len() > 9 {
        return None;
    }
    let mut number = 0;
    for byte in word {
        let digit = read_digit(*byte)?;
        number = 10 * number + digit;
    }
    Some(number)
}

// The number that is written as `chunk` and digits.
fn read_chunk_of(chunk: &[u8], digits: &[u8]) -> Option<u32>
    ensures { result ≡ chunk_form chunk.now digits.now }
{
    if chunk == b"chunk".as_slice() {
        read_number(digits)
    } else {
        None
    }
}

/// The chunk of the words `chunk` and a number. `None` where they are others.
pub fn read_chunk(words: &[&[u8]]) -> Option<u32>
    ensures { result ≡ chunk_of (map (λ word. word.now) words.now) }
{
    match words {
        [chunk, digits] => read_chunk_of(chunk, digits),
        _ => None,
    }
}

// The cutting that is written as `chunk` and digits, deep or not.
fn read_cut(chunk: &[u8], digits: &[u8], deep: bool) -> Option<Cutting>
    ensures { result ≡ cutting_form chunk.now digits.now deep }
{
    let chunk = read_chunk_of(chunk, digits)?;
    Some(Cutting { chunk, deep })
}

/// The cutting of the words `chunk`, a number, and `deep` or nothing. `None` where they are others.
pub fn read_cutting(words: &[&[u8]]) -> Option<Cutting>
    ensures { result ≡ cutting_of (map (λ word. word.now) words.now) }
{
    match words {
        [chunk, digits] => read_cut(chunk, digits, false),
        [chunk, digits, deep] if *deep == b"deep".as_slice() => read_cut(chunk, digits, true),
        _ => None,
    }
}

/// The number of the only word, which is 1 to 9 digits. `None` where it is another, or not the only one.
pub fn read_number_word(words: &[&[u8]]) -> Option<u32>
    ensures { result ≡ number_word (map (λ word. word.now) words.now) }
{
    match words {
        [digits] => read_number(digits),
        _ => None,
    }
}

/// Whether a word ends before these bytes.
pub fn is_word_end(after: &[u8]) -> bool
    ensures { result ≡ ends_word after.now }
{
    match after {
        [] => true,
        [byte, ..] => is_blank_byte(*byte),
    }
}

/// Whether the only word is `columns`.
pub fn is_columns_word(words: &[&[u8]]) -> bool
    ensures { result ≡ is_columns_word (map (λ word. word.now) words.now) }
{
    match words {
        [word] => *word == b"columns".as_slice(),
        _ => false,
    }
}
