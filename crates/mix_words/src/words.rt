// The words of a line, and which words are names.
ghost use Rattle.std.specs.Prelude.{◌≡◌, ◌++◌, ◌||◌, ◌==◌, IfOk, OnOk, map};
ghost use Rattle.std.specs.List.{list_all};
ghost use Rattle.mix_words.specs.Words.{words_of, unless_empty, is_blank, is_name, is_sql_name, is_letter, is_script_byte};

use std::alloc::{AllocError, Global};

/// Whether a byte is a space or a tab.
pub fn is_blank_byte(byte: u8) -> bool
    ensures { result ≡ is_blank byte }
{
    byte == b' ' || byte == b'\t'
}

// Adds a word, unless it is empty.
fn push_word<'a>(words: &mut Vec<&'a [u8]>, word: &'a [u8]) -> Result<(), AllocError>
    ensures { OnOk result (map (λ word. word.now) words.new.items ≡ map (λ word. word.now) words.old.items ++ unless_empty word.entry.now) }
{
    if !word.is_empty() {
        words.push(word)?;
    }
    Ok(())
}

/// The words of a line: what stands between spaces and tabs.
pub fn cut_words(alloc: Global, line: &[u8]) -> Result<Vec<&[u8]>, AllocError>
    ensures { IfOk result (λ words. map (λ word. word.now) words.items ≡ words_of line.now) }
{
    let mut words = Vec::new(alloc);
    let mut from = 0;
    for (at, byte) in line.iter().enumerate() {
        if is_blank_byte(*byte) {
            push_word(&mut words, &line[from..at])?;
            from = at + 1;
        }
    }
    push_word(&mut words, &line[from..])?;
    Ok(words)
}

// Whether a byte is an ASCII letter.
fn is_letter_byte(byte: u8) -> bool
    ensures { result ≡ is_letter byte }
{
    matches!(byte, b'a'..=b'z' | b'A'..=b'Z')
}

// Whether a byte may stand in a name after the first: an ASCII letter, a digit or `_`.
fn is_in_name(byte: u8) -> bool
    ensures { result ≡ is_script_byte byte }
{
    matches!(byte, b'a'..=b'z' | b'A'..=b'Z' | b'0'..=b'9' | b'_')
}

// Whether each byte may stand in a name after the first.
fn are_in_name(bytes: &[u8]) -> bool
    ensures { result ≡ list_all is_script_byte bytes.now }
{
    bytes.iter().all(|b| is_in_name(*b))
}

/// Whether a word is a script name: an ASCII letter, then ASCII letters, digits and `_`.
pub fn is_script_name(word: &[u8]) -> bool
    ensures { result ≡ is_name word.now }
{
    match word {
        [] => false,
        [first, others @ ..] => is_letter_byte(*first) && are_in_name(others),
    }
}

// Whether an SQL name may begin with a byte: an ASCII letter or `_`.
fn begins_sql_name(byte: u8) -> bool
    ensures { result ≡ (is_letter byte || byte == 95) }
{
    is_letter_byte(byte) || byte == b'_'
}

/// Whether a word is an SQL name: an ASCII letter or `_`, then ASCII letters, digits and `_`.
pub fn is_sql_name(word: &[u8]) -> bool
    ensures { result ≡ is_sql_name word.now }
{
    match word {
        [] => false,
        [first, others @ ..] => begins_sql_name(*first) && are_in_name(others),
    }
}
