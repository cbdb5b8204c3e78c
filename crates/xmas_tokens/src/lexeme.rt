// What the text of a token says.
ghost use Rattle.std.specs.Prelude.{◌≡◌, ◌<◌, ◌≤◌, nat_lt, length, slice_index, slice_range, IfOk, IsUtf8};
ghost use Rattle.xmas_tokens.specs.Lexemes.{IsWritten, IsLexeme, IsQuotedText, Quotes, IsPathText, SpellsPath, op_by};

use crate::token::{Kind, Mark};
use mix_tree::{Label, LabelRead, read_label};
use path_expr::{Path, PathFault, read_path};
use std::alloc::{AllocError, Global};

/// What a path has too much of.
#[derive(Clone, Copy, Debug, PartialEq, Eq)]
pub enum PathLimit {
    /// A parenthesis is open inside 100 others.
    Nesting,
    /// The path has more than 120 label positions.
    Positions,
}

/// A path, or the limit that it passes.
pub type PathText = Result<Path, PathLimit>;

/// How a rule's text compares two labels (docs/FORMATS.md, "Rules").
#[derive(Clone, Copy, PartialEq, Eq)]
pub enum Comparison {
    /// `=`.
    Eq,
    /// `!=`.
    Ne,
    /// `<`.
    Lt,
    /// `<=`.
    Le,
    /// `>`.
    Gt,
    /// `>=`.
    Ge,
}

/// A token with what it says.
#[derive(Drop)]
pub enum Lexeme {
    /// One that is always written the same.
    Fixed(Mark),
    /// An opening tag of the name.
    OpenTag(Label),
    /// A closing tag of the name.
    CloseTag(Label),
    /// A source's name.
    Name(Label),
    /// A variable of the name.
    Var(Label),
    /// A quoted label.
    Quoted(Label),
    /// A path.
    Path(PathText),
    /// An operator.
    Operator(Comparison),
}

// The label of a part of a text.
fn label_between(alloc: Global, text: &[u8], from: usize, to: usize) -> Result<Label, AllocError>
    requires order { from ≤ to }
    requires inside { to ≤ length text.now }
    requires utf8 { IsUtf8 (slice_range text.now from to) }
    ensures { IfOk result (λ l. l ≡ slice_range text.now from to) }
{
    Label::of_text(alloc, &text[from..to])
}

// The label that stands between quotes.
fn quoted_label(alloc: Global, text: &[u8]) -> Result<Label, AllocError>
    requires utf8 { IsUtf8 text.now }
    requires quoted { IsQuotedText text.now }
    ensures { IfOk result (λ l. Quotes text.now l) }
{
    match read_label(alloc, text, 0)? {
        LabelRead::Got { label, end: _ } => Ok(label),
        LabelRead::Unexpected(_) => unreachable!(),
        LabelRead::Ends => unreachable!(),
    }
}

// The path that is written so, or the limit that it passes.
fn path_text(alloc: Global, text: &[u8]) -> Result<PathText, AllocError>
    requires utf8 { IsUtf8 text.now }
    requires path { IsPathText text.now }
    ensures { IfOk result (λ p. SpellsPath text.now p) }
{
    match read_path(alloc, text) {
        Ok(path) => Ok(Ok(path)),
        Err(PathFault::TooDeep(_)) => Ok(Err(PathLimit::Nesting)),
        Err(PathFault::TooMany(_)) => Ok(Err(PathLimit::Positions)),
        Err(PathFault::OutOfMemory) => Err(AllocError),
        Err(PathFault::NotUtf8(_)) => unreachable!(),
        Err(PathFault::Unexpected(_)) => unreachable!(),
        Err(PathFault::Ends) => unreachable!(),
    }
}

// The operator that is written so.
fn operator(text: &[u8]) -> Comparison
    requires { 0 < length text.now }
    ensures { result ≡ op_by (slice_index text.now 0) (nat_lt 1 (length text.now)) }
{
    let first = text[0];
    if text.len() > 1 {
        return match first {
            b'!' => Comparison::Ne,
            b'<' => Comparison::Le,
            _ => Comparison::Ge,
        };
    }
    match first {
        b'=' => Comparison::Eq,
        b'<' => Comparison::Lt,
        _ => Comparison::Gt,
    }
}

/// The token of a kind that is written so, with what it says.
pub fn read_lexeme(alloc: Global, kind: Kind, text: &[u8]) -> Result<Lexeme, AllocError>
    requires utf8 { IsUtf8 text.now }
    requires written { IsWritten kind text.now }
    ensures { IfOk result (λ w. IsLexeme kind text.now w) }
{
    let end = text.len();
    match kind {
        Kind::Fixed(mark) => Ok(Lexeme::Fixed(mark)),
        Kind::OpenTag => Ok(Lexeme::OpenTag(label_between(alloc, text, 1, end - 1)?)),
        Kind::CloseTag => Ok(Lexeme::CloseTag(label_between(alloc, text, 2, end - 1)?)),
        Kind::Name => Ok(Lexeme::Name(label_between(alloc, text, 0, end)?)),
        Kind::Var => Ok(Lexeme::Var(label_between(alloc, text, 1, end)?)),
        Kind::Quoted => Ok(Lexeme::Quoted(quoted_label(alloc, text)?)),
        Kind::Path => Ok(Lexeme::Path(path_text(alloc, text)?)),
        Kind::Operator => Ok(Lexeme::Operator(operator(text))),
    }
}
