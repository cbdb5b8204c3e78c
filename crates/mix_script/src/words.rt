// The words of a text, seen where they stand.
ghost use Rattle.std.specs.Prelude.{◌≡◌, ◌<◌, ◌≤◌, ◌++◌, [], ◌∷◌, false, length, drop, slice_range, slice_index, MatchOption};
ghost use Rattle.mix_words.specs.Words.{is_blank, unless_empty, words_of};
ghost use Rattle.mix_script.specs.Lines.{no_words};
ghost use Rattle.mix_script.specs.LineWords.{AreWords};

use mix_words::words::is_blank_byte;

/// The words of a text that has two to four of them.
#[derive(Clone, Copy)]
pub enum LineWords<'a> {
    Two(&'a [u8], &'a [u8]),
    Three(&'a [u8], &'a [u8], &'a [u8]),
    Four(&'a [u8], &'a [u8], &'a [u8], &'a [u8]),
    /// The text has fewer words or more.
    Other,
}

// Where the first byte stands that is no blank; the end of a text without one.
#[inline]
fn blanks_end(text: &[u8]) -> usize
    ensures inside { result ≤ length text.now }
    ensures words { words_of (drop result text.now) ≡ words_of text.now }
    ensures begins { result < length text.now → is_blank (slice_index text.now result) ≡ false }
{
    let mut at = 0;
    while at < text.len() && is_blank_byte(text[at]) {
        at += 1;
    }
    at
}

// Where the bytes end that begin at a place and are no blanks.
#[inline]
fn word_end(text: &[u8], from: usize) -> usize
    requires { from ≤ length text.now }
    ensures order { from ≤ result }
    ensures inside { result ≤ length text.now }
    ensures some { from < length text.now → is_blank (slice_index text.now from) ≡ false → from < result }
    ensures words { words_of (drop from text.now) ≡ unless_empty (slice_range text.now from result) ++ words_of (drop result text.now) }
{
    let mut end = from;
    while end < text.len() && !is_blank_byte(text[end]) {
        end += 1;
    }
    end
}

/// The first word of a text, and what stands after it; `None` where the text has no words.
#[inline]
pub fn first_word(text: &[u8]) -> Option<(&[u8], &[u8])>
    ensures { MatchOption result (words_of text.now ≡ []) (λ cut. words_of text.now ≡ cut.0.now ∷ words_of cut.1.now) }
{
    let from = blanks_end(text);
    if from == text.len() {
        return None;
    }
    let to = word_end(text, from);
    Some((&text[from..to], &text[to..]))
}

/// Whether a text has no words.
#[inline]
pub fn is_wordless(text: &[u8]) -> bool
    ensures { result ≡ no_words (words_of text.now) }
{
    first_word(text).is_none()
}

/// The words of a text that has two to four of them.
pub fn line_words(text: &[u8]) -> LineWords<'_>
    ensures { AreWords (words_of text.now) result }
{
    let Some((first, rest)) = first_word(text) else {
        return LineWords::Other;
    };
    let Some((second, rest)) = first_word(rest) else {
        return LineWords::Other;
    };
    let Some((third, rest)) = first_word(rest) else {
        return LineWords::Two(first, second);
    };
    let Some((fourth, rest)) = first_word(rest) else {
        return LineWords::Three(first, second, third);
    };
    if is_wordless(rest) {
        return LineWords::Four(first, second, third, fourth);
    }
    LineWords::Other
}
