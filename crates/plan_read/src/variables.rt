// Variables and keys as a plan's text has them.
ghost use Rattle.std.specs.Prelude.{◌≡◌, ◌<◌, ◌==◌, ◌++◌, ◌^◌, IfOk, OnOk, length, map, option_map, slice_index};
ghost use Rattle.std.specs.List.{flat_map};
ghost use Rattle.plan_read.specs.Variables.{as_list, dollared, var_named, var_read, has_label, key_read, braced, key_texts, all_read, keys_read, key_dollared, word_vars, line_vars, is_below};

use crate::names::Names;
use crate::numbers::var_number;
use crate::words::cut;
use mix_tree::{Key, Var};
use mix_words::words::is_script_name;
use std::alloc::{AllocError, Global};

// What stands after the `$` of a variable, where the word is one.
fn dollared(word: &[u8]) -> Option<&[u8]>
    ensures { option_map (λ x. x.now) result ≡ dollared word.now }
{
    match word {
        [b'$', text @ ..] => Some(text),
        _ => None,
    }
}

// The variable that is written so after its `$`.
fn var_named(names: &Names, text: &[u8]) -> Option<Var>
    requires { length names.now < 2 ^ 32 }
    ensures { result ≡ var_named names.now text.now }
{
    let number = if is_script_name(text) {
        names.number(text)? as u32
    } else {
        var_number(text)?
    };
    Some(Var::new(number))
}

/// The variable of a word; `None` where it is none, or has a name that isn't among these.
pub fn read_var(names: &Names, word: &[u8]) -> Option<Var>
    requires { length names.now < 2 ^ 32 }
    ensures { result ≡ var_read names.now word.now }
{
    var_named(names, dollared(word)?)
}

// Whether a text begins with the word label and a blank.
fn has_label(text: &[u8]) -> bool
    ensures { result ≡ has_label text.now }
{
    let prefix = match text.get(..6) {
        Some(prefix) => prefix,
        None => text,
    };
    *prefix == *b"label ".as_slice()
}

// The key that is written so.
fn read_key(names: &Names, text: &[u8]) -> Option<Key>
    requires { length names.now < 2 ^ 32 }
    ensures { result ≡ key_read names.now text.now }
{
    if has_label(text) {
        return Some(Key::LabelOf(read_var(names, &text[6..])?));
    }
    Some(Key::Node(read_var(names, text)?))
}

// What stands between braces.
fn braced(word: &[u8]) -> Option<&[u8]>
    ensures { option_map (λ x. x.now) result ≡ braced word.now }
{
    if word.len() >= 2 && word[0] == b'{' && word[word.len() - 1] == b'}' {
        return Some(&word[1..word.len() - 1]);
    }
    None
}

// The texts of keys with commas between them.
fn key_texts(alloc: Global, body: &[u8]) -> Result<Vec<&[u8]>, AllocError>
    ensures { IfOk result (λ texts. map (λ text. text.now) texts.items ≡ key_texts body.now) }
{
    if body.is_empty() {
        return Ok(Vec::new(alloc));
    }
    cut(alloc, body, b',')
}

// The keys that are written so.
fn read_each(alloc: Global, names: &Names, texts: &[&[u8]]) -> Result<Option<Vec<Key>>, AllocError>
    requires { length names.now < 2 ^ 32 }
    ensures { IfOk result (λ keys. option_map (λ ks. ks.items) keys ≡ all_read (key_read names.now) (map (λ text. text.now) texts.now)) }
{
    let mut keys = Vec::new(alloc);
    'texts: for text in texts {
        let Some(key) = read_key(names, text) else {
            return Ok(None);
        };
        keys.push(key)?;
    }
    Ok(Some(keys))
}

/// The keys of a word; `None` where it isn't keys between braces.
pub fn read_keys(alloc: Global, names: &Names, word: &[u8]) -> Result<Option<Vec<Key>>, AllocError>
    requires { length names.now < 2 ^ 32 }
    ensures { IfOk result (λ keys. option_map (λ ks. ks.items) keys ≡ keys_read names.now word.now) }
{
    let Some(body) = braced(word) else {
        return Ok(None);
    };
    let texts = key_texts(alloc, body)?;
    read_each(alloc, names, &texts)
}

// The variable in a key's text, as it is written after its `$`.
fn key_dollared(text: &[u8]) -> Option<&[u8]>
    ensures { as_list (option_map (λ x. x.now) result) ≡ key_dollared text.now }
{
    if has_label(text) {
        return dollared(&text[6..]);
    }
    dollared(text)
}

// Adds the variables of keys.
fn push_key_vars<'a>(
    alloc: Global,
    vars: &mut Vec<&'a [u8]>,
    body: &'a [u8],
) -> Result<(), AllocError>
    ensures { OnOk result (map (λ x. x.now) vars.new.items ≡ map (λ x. x.now) vars.old.items ++ flat_map key_dollared (key_texts body.entry.now)) }
{
    let texts = key_texts(alloc, body)?;
    'texts: for text in texts.iter() {
        if let Some(var) = key_dollared(text) {
            vars.push(var)?;
        }
    }
    Ok(())
}

// Whether a word is keys, if it is anything.
fn begins_keys(word: &[u8]) -> bool
    ensures { result ≡ (slice_index word.now 0 == 123) }
{
    !word.is_empty() && word[0] == b'{'
}

// Adds the variables of a word, each as it is written after its `$`.
fn push_word_vars<'a>(
    alloc: Global,
    vars: &mut Vec<&'a [u8]>,
    word: &'a [u8],
) -> Result<(), AllocError>
    ensures { OnOk result (map (λ x. x.now) vars.new.items ≡ map (λ x. x.now) vars.old.items ++ word_vars word.entry.now) }
{
    if begins_keys(word) {
        return match braced(word) {
            Some(body) => push_key_vars(alloc, vars, body),
            None => Ok(()),
        };
    }
    if let Some(var) = dollared(word) {
        vars.push(var)?;
    }
    Ok(())
}

/// The variables of a line, in the order of the text, each as it is written after its `$`.
pub fn line_vars(alloc: Global, line: &[u8]) -> Result<Vec<&[u8]>, AllocError>
    ensures { IfOk result (λ vars. map (λ x. x.now) vars.items ≡ line_vars line.now) }
{
    let words = cut(alloc, line, b' ')?;
    let mut vars = Vec::new(alloc);
    'words: for word in words.iter() {
        push_word_vars(alloc, &mut vars, word)?;
    }
    Ok(vars)
}

/// Whether a variable's text is a number smaller than a count, and no name.
pub fn is_below(text: &[u8], count: usize) -> bool
    ensures { result ≡ is_below count text.now }
{
    if is_script_name(text) {
        return false;
    }
    match var_number(text) {
        Some(number) => (number as usize) < count,
        None => false,
    }
}
