// Labels, paths, names and signs as a plan's text has them.
ghost use Rattle.std.specs.Prelude.{◌≡◌, ◌≤◌, IfOk, IfSome, IsUtf8, MatchBool};
ghost use Rattle.std.specs.List.{list_all};
ghost use Rattle.mix_tree.specs.Names.{is_name_byte};
ghost use Rattle.mix_catalog.specs.Forms.{is_source_name};
ghost use Rattle.mix_tree.specs.LabelReads.{seen_of};
ghost use Rattle.path_expr.specs.Form.{positions_in};
ghost use Rattle.plan_read.specs.Reading.{begins, whole_label, quoted_read, long_path, path_read, sign_read, direction_read};

use mix_tree::{Label, LabelRead, TestOp, read_label};
use path_expr::{Node, Path, PathFault, is_name, read_path};
use std::alloc::{AllocError, Global};

/// The most label positions that a path may have.
pub const POSITIONS: usize = 120;

// Whether each byte may stand in a name.
fn are_in_name(bytes: &[u8]) -> bool
    ensures { result ≡ list_all is_name_byte bytes.now }
{
    bytes.iter().all(|b| is_name(*b))
}

/// Whether a word is a name of one or more ASCII letters, digits, `_` and `-`.
pub fn is_name_word(word: &[u8]) -> bool
    ensures { result ≡ is_source_name word.now }
{
    !word.is_empty() && are_in_name(word)
}

/// Whether a word is a variable, if it is anything.
pub fn begins_var(word: &[u8]) -> bool
    ensures { result ≡ begins 36 word.now }
{
    match word {
        [first, ..] => *first == b'$',
        [] => false,
    }
}

// Whether a word begins with a quote.
fn begins_quoted(word: &[u8]) -> bool
    ensures { result ≡ begins 34 word.now }
{
    match word {
        [first, ..] => *first == b'"',
        [] => false,
    }
}

// Whether a word is UTF-8.
fn is_text(word: &[u8]) -> bool
    ensures { MatchBool result (IsUtf8 word.now) (¬ IsUtf8 word.now) }
{
    str::from_utf8(word).is_ok()
}

// The label that is the whole of a word, by what was read at its start.
fn whole_label(word: &[u8], read: LabelRead) -> Option<Label>
    ensures { result ≡ whole_label (seen_of word.now read) }
{
    match read {
        LabelRead::Got { label, end } if end >= word.len() => Some(label),
        LabelRead::Got { label, end: _ } => {
            drop(label);
            None
        }
        LabelRead::Unexpected(_) => None,
        LabelRead::Ends => None,
    }
}

/// The label that a word spells between quotes; `None` where it spells none.
pub fn read_quoted(alloc: Global, word: &[u8]) -> Result<Option<Label>, AllocError>
    ensures { IfOk result (λ label. label ≡ quoted_read word.now) }
{
    if !is_text(word) {
        return Ok(None);
    }
    if !begins_quoted(word) {
        return Ok(None);
    }
    let read = read_label(alloc, word, 0)?;
    Ok(whole_label(word, read))
}

// A path of 121 label positions, which stands for each that has too many.
fn long_path(alloc: Global) -> Result<Path, AllocError>
    ensures { IfOk result (λ path. path ≡ long_path) }
{
    let mut members = Vec::new(alloc);
    while members.len() <= POSITIONS {
        members.push(Path::new(Node::Any))?;
    }
    Ok(Path::new(Node::Seq(members)))
}

/// The path that a word spells; one of 121 label positions where it spells one of more than 120. `None` where it spells none, or one whose
/// parentheses nest too deep.
pub fn read_path_word(alloc: Global, word: &[u8]) -> Result<Option<Path>, AllocError>
    ensures path { IfOk result (λ path. path ≡ path_read word.now) }
    ensures few { IfOk result (λ path. IfSome path (λ p. positions_in p ≤ 121)) }
{
    match read_path(alloc, word) {
        Ok(path) => Ok(Some(path)),
        Err(PathFault::TooMany(_)) => Ok(Some(long_path(alloc)?)),
        Err(PathFault::OutOfMemory) => Err(AllocError),
        Err(PathFault::NotUtf8(_)) => Ok(None),
        Err(PathFault::Unexpected(_)) => Ok(None),
        Err(PathFault::Ends) => Ok(None),
        Err(PathFault::TooDeep(_)) => Ok(None),
    }
}

/// The comparison of a sign.
pub fn read_sign(word: &[u8]) -> Option<TestOp>
    ensures { result ≡ sign_read word.now }
{
    if word == b"=".as_slice() {
        Some(TestOp::Eq)
    } else if word == b"!=".as_slice() {
        Some(TestOp::Ne)
    } else if word == b"<".as_slice() {
        Some(TestOp::Lt)
    } else if word == b"<=".as_slice() {
        Some(TestOp::Le)
    } else if word == b">".as_slice() {
        Some(TestOp::Gt)
    } else if word == b">=".as_slice() {
        Some(TestOp::Ge)
    } else if word == b"is".as_slice() {
        Some(TestOp::Same)
    } else {
        None
    }
}

/// Whether an order descends, by its direction.
pub fn read_direction(word: &[u8]) -> Option<bool>
    ensures { result ≡ direction_read word.now }
{
    if word == b"desc".as_slice() {
        Some(true)
    } else if word == b"asc".as_slice() {
        Some(false)
    } else {
        None
    }
}
