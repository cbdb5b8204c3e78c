// The line and the column of a byte.
ghost use Rattle.std.specs.Prelude.{◌≡◌, ◌≤◌, ◌==◌, length, take, slice_range, count_by};
ghost use Rattle.text_places.specs.Lines.{HasLineBegin, HasLineEnd, IsPlaceOf, begins_char};

/// Where a byte of a text stands. Lines and columns count from 1, a column for each character.
#[derive(Clone, Copy, Debug, PartialEq, Eq)]
pub struct TextPlace {
    pub line: usize,
    pub column: usize,
    /// Where the line begins, in bytes from the beginning of the text.
    pub begin: usize,
    /// Where the line ends: at its LF, or with the text.
    pub end: usize,
}

// How many lines end before the end of a text.
fn count_lines(front: &[u8]) -> usize
    ensures { result ≡ count_by (λ b. b == 10) front.now }
{
    front.iter().filter(|b| **b == b'\n').count()
}

/// Whether a character of UTF-8 begins with a byte.
pub fn begins_char(byte: u8) -> bool
    ensures { result ≡ begins_char byte }
{
    !(128..192).contains(&byte)
}

// How many characters begin in a text.
fn count_chars(bytes: &[u8]) -> usize
    ensures { result ≡ count_by begins_char bytes.now }
{
    bytes.iter().filter(|b| begins_char(**b)).count()
}

// Where the last line of a text begins.
fn line_begin(front: &[u8]) -> usize
    ensures { HasLineBegin front.now (length front.now) result }
{
    let mut begin = 0;
    for (at, byte) in front.iter().enumerate() {
        if *byte == b'\n' {
            begin = at + 1;
        }
    }
    begin
}

// Where the line ends that a place is in.
fn line_end(text: &[u8], at: usize) -> usize
    requires { at ≤ length text.now }
    ensures { HasLineEnd text.now at result }
{
    for end in at..text.len() {
        if text[end] == b'\n' {
            return end;
        }
    }
    text.len()
}

/// Where a byte of a text stands, or the end of the text.
pub fn place_at(text: &[u8], at: usize) -> TextPlace
    requires { at ≤ length text.now }
    ensures { IsPlaceOf text.now at result }
{
    let front = &text[..at];
    let begin = line_begin(front);
    TextPlace {
        line: count_lines(front) + 1,
        column: count_chars(&text[begin..at]) + 1,
        begin,
        end: line_end(text, at),
    }
}
