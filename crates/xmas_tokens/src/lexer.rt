// Reading a token byte by byte, keeping nothing but what it may be.
ghost use Rattle.std.specs.Prelude.{◌≡◌, ◌<◌, ◌≤◌, ◌+◌, ◌^◌, IfSome};
ghost use Rattle.xmas_tokens.specs.Lexical.{is_blank, is_letter, is_word_byte};
ghost use Rattle.xmas_tokens.specs.Tokens.{mark_text};
ghost use Rattle.xmas_tokens.specs.Parts.{mark_step, part_step, kind_in, part_depth};

use crate::token::{Kind, Mark, Sign};
use path_expr::{Scan as PathScan, is_escaped, is_name, may_end_scan, scan_byte as scan_path_byte};

/// What has been read of a token.
#[derive(Clone, Copy)]
pub enum Part {
    /// Nothing: no token is at hand.
    Between,
    /// So many bytes of a token that is always the same.
    Marking(Mark, usize),
    /// A `<`; whether an opening tag may stand there, and whether a closing one.
    Angle(bool, bool),
    /// An opening tag, with a byte of its name at least.
    Opening,
    /// `</`
    Slash,
    /// A closing tag, with a byte of its name at least.
    Closing,
    /// A name.
    Naming,
    /// A `$`.
    Dollar,
    /// A variable, with a byte of its name at least.
    Varying,
    /// A quoted label.
    Quoting,
    /// A quoted label up to a backslash.
    Escaping,
    /// A path.
    Pathing(PathScan),
    /// An operator that may go on.
    Comparing(Sign),
    /// A token that ends here.
    Ready(Kind),
}

/// Whether the byte is a blank.
pub fn is_blank_byte(byte: u8) -> bool
    ensures { result ≡ is_blank byte }
{
    matches!(byte, b' ' | b'\t' | b'\n' | b'\r')
}

// Whether the byte is an ASCII letter.
fn is_letter_byte(byte: u8) -> bool
    ensures { result ≡ is_letter byte }
{
    matches!(byte, b'a'..=b'z' | b'A'..=b'Z')
}

// Whether a variable's name may have the byte after its first.
fn is_var_byte(byte: u8) -> bool
    ensures { result ≡ is_word_byte byte }
{
    matches!(byte, b'a'..=b'z' | b'A'..=b'Z' | b'0'..=b'9' | b'_')
}

// The text of a token that is always the same.
fn mark_bytes(mark: Mark) -> &'static [u8]
    ensures { result.now ≡ mark_text mark }
{
    match mark {
        Mark::Construct => b"CONSTRUCT",
        Mark::Where => b"WHERE",
        Mark::And => b"AND",
        Mark::LabelWord => b"label",
        Mark::OpenBrace => b"{",
        Mark::CloseBrace => b"}",
        Mark::Comma => b",",
        Mark::Order => b"ORDER",
        Mark::By => b"BY",
        Mark::Desc => b"DESC",
    }
}

// One more byte of a token that is always the same.
fn next_of_mark(mark: Mark, read: usize, byte: u8) -> Option<Part>
    ensures { result ≡ mark_step mark read byte }
{
    let text = mark_bytes(mark);
    if read < text.len() && byte == text[read] {
        return Some(Part::Marking(mark, read + 1));
    }
    None
}

// A path after one more byte, where it goes on with that.
fn next_of_path(scan: PathScan, byte: u8) -> Option<Part>
    requires { scan.depth + 1 < 2 ^ 64 }
    ensures step { result ≡ part_step (Part.Pathing scan) byte }
    ensures depth { IfSome result (λ p. part_depth p ≤ scan.depth + 1) }
{
    Some(Part::Pathing(scan_path_byte(scan, byte)?))
}

/// The token after one more byte; `None` where it does not go on with that.
pub fn next_part(part: Part, byte: u8) -> Option<Part>
    requires { part_depth part + 1 < 2 ^ 64 }
    ensures step { result ≡ part_step part byte }
    ensures depth { IfSome result (λ p. part_depth p ≤ part_depth part + 1) }
{
    let next = match part {
        Part::Between | Part::Ready(_) => return None,
        Part::Marking(mark, read) => return next_of_mark(mark, read, byte),
        Part::Pathing(scan) => return next_of_path(scan, byte),
        Part::Angle(_, true) if byte == b'/' => Part::Slash,
        Part::Angle(true, _) | Part::Opening if is_name(byte) => Part::Opening,
        Part::Opening if byte == b'>' => Part::Ready(Kind::OpenTag),
        Part::Slash | Part::Closing if is_name(byte) => Part::Closing,
        Part::Closing if byte == b'>' => Part::Ready(Kind::CloseTag),
        Part::Naming if is_name(byte) => Part::Naming,
        Part::Dollar if is_letter_byte(byte) => Part::Varying,
        Part::Varying if is_var_byte(byte) => Part::Varying,
        Part::Quoting if byte == b'"' => Part::Ready(Kind::Quoted),
        Part::Quoting if byte == b'\\' => Part::Escaping,
        Part::Quoting => Part::Quoting,
        Part::Escaping if is_escaped(byte) => Part::Quoting,
        Part::Comparing(_) if byte == b'=' => Part::Ready(Kind::Operator),
        _ => return None,
    };
    Some(next)
}

/// The kind of the token, where it may end here.
pub fn ended_kind(part: Part) -> Option<Kind>
    ensures { result ≡ kind_in part }
{
    match part {
        Part::Marking(mark, read) if read == mark_bytes(mark).len() => Some(Kind::Fixed(mark)),
        Part::Naming => Some(Kind::Name),
        Part::Varying => Some(Kind::Var),
        Part::Pathing(scan) if may_end_scan(scan) => Some(Kind::Path),
        Part::Ready(kind) => Some(kind),
        Part::Comparing(Sign::Less | Sign::Greater) => Some(Kind::Operator),
        _ => None,
    }
}
