// What stands between quotes, a piece at a time.
ghost use Rattle.std.specs.Prelude.{◌≡◌, ◌≤◌, length};
ghost use Rattle.std.specs.Str.{IsUtf8, IsCharBoundary};
ghost use Rattle.mix_tree.specs.LabelPieces.{IsPiece, escape_of};

use crate::label_scan::plain_end;

/// What stands between quotes from a place on.
#[derive(Clone, Copy)]
pub enum LabelPiece {
    /// Bytes that stand for themselves up to `to`, and there an escape of two bytes, which means `byte`.
    Escape { to: usize, byte: u8 },
    /// Bytes that stand for themselves up to `to`, and there the closing quote.
    Quote { to: usize },
    /// The place of the first byte with which no spelling goes on.
    Unexpected(usize),
    /// The text ends before the closing quote.
    Ends,
}

// The byte that is meant by one after a backslash.
fn unescaped(byte: u8) -> Option<u8>
    ensures { result ≡ escape_of byte }
{
    match byte {
        b'"' | b'\\' => Some(byte),
        b'n' => Some(b'\n'),
        b't' => Some(b'\t'),
        _ => None,
    }
}

/// What stands between quotes from a place on, up to the next escape or the closing quote.
pub fn next_piece(text: &[u8], at: usize) -> LabelPiece
    requires inside { at ≤ length text.now }
    requires utf8 { IsUtf8 text.now }
    requires boundary { IsCharBoundary text.now at }
    ensures { IsPiece text.now at result }
{
    let to = plain_end(text, at);
    let Some(&byte) = text.get(to) else {
        return LabelPiece::Ends;
    };
    if byte == b'"' {
        return LabelPiece::Quote { to };
    }
    let Some(&escape) = text.get(to + 1) else {
        return LabelPiece::Ends;
    };
    match unescaped(escape) {
        Some(byte) => LabelPiece::Escape { to, byte },
        None => LabelPiece::Unexpected(to + 1),
    }
}
