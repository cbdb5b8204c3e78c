// The forms that the parts of a text have to have, so that none is passed over.
use crate::fault::{Defect, Fault};
use crate::part::{Part, has_part, is_head};

/// What a part has beside its word.
#[derive(Clone, Copy, PartialEq, Eq)]
pub enum Shape {
    Nothing,
    /// Words after the part's word.
    Words,
    /// Pieces that follow the part's word.
    Pieces,
    /// Words after it, and pieces that follow.
    WordsAndPieces,
}

/// How often a case may have parts of a word.
#[derive(Clone, Copy, PartialEq, Eq)]
pub enum Times {
    Once,
    /// Once with the same words after it.
    OnceEach,
    Often,
}

/// The form of the parts of a word.
#[derive(Clone, Copy)]
pub struct Form(pub &'static str, pub Shape, pub Times);

// What is wrong with a part of this shape.
fn defect_of_shape(part: &Part<'_>, shape: Shape) -> Option<Defect> {
    let has_no_words = shape == Shape::Nothing || shape == Shape::Pieces;
    let has_no_pieces = shape == Shape::Nothing || shape == Shape::Words;
    if has_no_words && !part.rest.is_empty() {
        Some(Defect::Rest)
    } else if has_no_pieces && !part.bytes.is_empty() {
        Some(Defect::Pieces)
    } else {
        None
    }
}

// Whether a part stands among those before it, where it may not.
fn is_again(part: &Part<'_>, times: Times, before: &[Part<'_>]) -> bool {
    match times {
        Times::Once => before.iter().any(|other| other.word == part.word),
        Times::OnceEach => has_part(before, part.word, part.rest),
        Times::Often => false,
    }
}

// Refuses a part that has none of these forms, after those before it.
fn check_part(part: &Part<'_>, before: &[Part<'_>], forms: &[Form]) -> Result<(), Fault> {
    let Some(Form(_, shape, times)) = forms.iter().find(|form| form.0 == part.word) else {
        return Err(part.wrong(Defect::Word));
    };
    if is_again(part, *times, before) {
        return Err(part.wrong(Defect::Twice));
    }
    match defect_of_shape(part, *shape) {
        Some(defect) => Err(part.wrong(defect)),
        None => Ok(()),
    }
}

/// Refuses the parts of a case where one has none of these forms.
pub fn check_parts(parts: &[Part<'_>], forms: &[Form]) -> Result<(), Fault> {
    for (at, part) in parts.iter().enumerate() {
        check_part(part, parts.get(..at).unwrap_or(parts), forms)?;
    }
    Ok(())
}

// Refuses a part of a text, after those before it, that no case, setting or text can have.
fn check_place(part: &Part<'_>, before: &[Part<'_>]) -> Result<(), Fault> {
    if is_head(part.word) {
        if part.rest.is_empty() || has_part(before, part.word, part.rest) {
            return Err(part.wrong(Defect::Twice));
        }
        if part.word != "text" && !part.bytes.is_empty() {
            return Err(part.wrong(Defect::Pieces));
        }
        return Ok(());
    }
    match before.last() {
        Some(last) if last.word != "text" => Ok(()),
        _ => Err(part.wrong(Defect::Outside)),
    }
}

/// Refuses a text where a part stands outside of cases and settings, or a name twice.
pub fn check_places(parts: &[Part<'_>]) -> Result<(), Fault> {
    for (at, part) in parts.iter().enumerate() {
        check_place(part, parts.get(..at).unwrap_or(parts))?;
    }
    Ok(())
}
