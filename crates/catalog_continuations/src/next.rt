// The words with which a line goes on.
ghost use Rattle.std.specs.Prelude.{◌≡◌, ◌+◌, IfOk, OnOk, get_or, length, map};
ghost use Rattle.mix_base.specs.Ascents.{Among};
ghost use Rattle.mix_words.specs.Words.{words_of};
ghost use Rattle.catalog_continuations.specs.declared.form_word.FormWord.TheVariants.{End};
ghost use Rattle.catalog_continuations.specs.GoesOn.{IsOneLine, Tells};
ghost use Rattle.catalog_continuations.specs.Next.{AreAdded, AreNext, Below, Leads, LeadsAt, StandsIn, may_be_of};

use crate::FormWord;
use crate::line_form::{FORMS, LineForm};
use crate::tried::goes_on_with;
use mix_words::words::cut_words;
use std::alloc::{AllocError, Global};

// Whether the third of some words, where there is one, is the word that names a form.
fn names_form(words: &[&[u8]], form: LineForm) -> bool
    ensures { result ≡ may_be_of (map (λ word. word.now) words.now) form }
{
    match words {
        [_, _, word, ..] => *word == form.word().spelling().as_bytes(),
        _ => true,
    }
}

// Whether a front may be of a form. `Err`: memory.
fn may_be_of(alloc: Global, front: &[u8], form: LineForm) -> Result<bool, AllocError>
    ensures { IfOk result (λ may. may ≡ may_be_of (words_of front.now) form) }
{
    let words = cut_words(alloc, front)?;
    Ok(names_form(&words, form))
}

// Whether a word is one of some.
fn has_word(words: &[FormWord], word: FormWord) -> bool
    ensures { Tells (Among word words.now) result }
{
    for other in words {
        if *other == word {
            return true;
        }
    }
    false
}

// Adds a word where a front and it and the words behind it are a line, unless it is there. `Err`: memory.
fn push_word(
    alloc: Global,
    front: &[u8],
    rest: &[FormWord],
    word: FormWord,
    words: &mut Vec<FormWord>,
) -> Result<(), AllocError>
    requires { IsOneLine front.now }
    ensures { OnOk result (AreAdded (Leads front.now rest.now word) words.old.items words.new.items) }
{
    if has_word(words, word) {
        return Ok(());
    }
    let goes = goes_on_with(alloc, front, rest)?;
    if goes {
        words.push(word)?;
        return Ok(());
    }
    Ok(())
}

// The word of a form behind so many; behind the last one the end.
fn word_at(form: &[FormWord], passed: usize) -> FormWord
    ensures { result ≡ get_or form.now passed End }
{
    match form.get(passed) {
        Some(word) => *word,
        None => FormWord::End,
    }
}

// Adds the words of a form from each of which on they are a line with a front. `Err`: memory.
fn push_words(
    alloc: Global,
    front: &[u8],
    form: &[FormWord],
    words: &mut Vec<FormWord>,
) -> Result<(), AllocError>
    requires { IsOneLine front.now }
    ensures { OnOk result (AreAdded (Below (LeadsAt front.now form.now) (length form.now + 1)) words.old.items words.new.items) }
{
    for passed in 0..form.len() + 1 {
        push_word(alloc, front, &form[passed..], word_at(form, passed), words)?;
    }
    Ok(())
}

// Adds the words of a form with which a front goes on that may be of it. `Err`: memory.
fn push_form(
    alloc: Global,
    front: &[u8],
    form: LineForm,
    words: &mut Vec<FormWord>,
) -> Result<(), AllocError>
    requires { IsOneLine front.now }
    ensures { OnOk result (AreAdded (StandsIn front.now form) words.old.items words.new.items) }
{
    let may = may_be_of(alloc, front, form)?;
    if may {
        return push_words(alloc, front, form.words(), words);
    }
    Ok(())
}

/// The words that can stand next in a line behind a front. `Err`: memory.
pub fn next_words(alloc: Global, front: &[u8]) -> Result<Vec<FormWord>, AllocError>
    requires { IsOneLine front.now }
    ensures { IfOk result (λ words. AreNext front.now words.items) }
{
    let mut words = Vec::new(alloc);
    for form in FORMS {
        push_form(alloc, front, *form, &mut words)?;
    }
    Ok(words)
}
