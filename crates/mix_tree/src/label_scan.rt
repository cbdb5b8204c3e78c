// Labels that stand in a text as their own bytes: bare ones, and those between quotes without escapes.
ghost use Rattle.std.specs.Prelude.{◌≡◌, ◌<◌, ◌≤◌, false, length, slice_range, slice_index, IsTrue, MatchOption};
ghost use Rattle.std.specs.Str.{IsUtf8, IsCharBoundary};
ghost use Rattle.std.specs.List.{list_all};
ghost use Rattle.mix_tree.specs.Spelling.{is_bare};
ghost use Rattle.mix_tree.specs.LabelGrammar.{is_plain};
ghost use Rattle.mix_tree.specs.LabelPieces.{StandsAt};

use crate::bare_table::is_bare_byte;

/// A label that stands in a text as its own bytes: where these begin and end, and where its spelling ends.
#[derive(Clone, Copy)]
pub struct PlainLabel {
    pub from: usize,
    pub to: usize,
    pub end: usize,
}

// Where the bare characters end that begin at a place.
#[inline]
fn bare_end(text: &[u8], from: usize) -> usize
    requires { from ≤ length text.now }
    ensures order { from ≤ result }
    ensures inside { result ≤ length text.now }
    ensures bare { IsTrue (list_all is_bare (slice_range text.now from result)) }
    ensures ends { result < length text.now → is_bare (slice_index text.now result) ≡ false }
{
    let mut end = from;
    while end < text.len() && is_bare_byte(text[end]) {
        end += 1;
    }
    end
}

// Whether a byte stands for itself between quotes.
#[inline]
fn is_plain_byte(byte: u8) -> bool
    ensures { result ≡ is_plain byte }
{
    byte != b'"' && byte != b'\\'
}

/// Where the bytes end that begin at a place and stand for themselves between quotes.
#[inline]
pub fn plain_end(text: &[u8], from: usize) -> usize
    requires { from ≤ length text.now }
    ensures order { from ≤ result }
    ensures inside { result ≤ length text.now }
    ensures plain { IsTrue (list_all is_plain (slice_range text.now from result)) }
    ensures ends { result < length text.now → is_plain (slice_index text.now result) ≡ false }
{
    let mut end = from;
    while end < text.len() && is_plain_byte(text[end]) {
        end += 1;
    }
    end
}

/// The label whose spelling begins at a place, where it stands there as its own bytes. `None`: no bare character is there,
/// and what a quote there begins has an escape in it or does not end.
#[inline]
pub fn plain_label(text: &[u8], at: usize) -> Option<PlainLabel>
    requires inside { at < length text.now }
    requires utf8 { IsUtf8 text.now }
    requires boundary { IsCharBoundary text.now at }
    ensures { MatchOption result (is_bare (slice_index text.now at) ≡ false) (StandsAt text.now at) }
{
    let first = text[at];
    if is_bare_byte(first) {
        let end = bare_end(text, at);
        return Some(PlainLabel {
            from: at,
            to: end,
            end,
        });
    }
    if first != b'"' {
        return None;
    }
    let to = plain_end(text, at + 1);
    if to < text.len() && text[to] == b'"' {
        return Some(PlainLabel {
            from: at + 1,
            to,
            end: to + 1,
        });
    }
    None
}
