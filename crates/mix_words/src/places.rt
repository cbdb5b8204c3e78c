// Where a word of a line begins.
ghost use Rattle.std.specs.Prelude.{◌≡◌, ◌<◌, IfSome, IsTrue, true, length, take};
ghost use Rattle.mix_words.specs.Places.{place_of_word, ends_blank};

use crate::words::is_blank_byte;

/// Where the word begins that has so many words before it; `None` where the line has no such word.
pub fn word_place(line: &[u8], count: usize) -> Option<usize>
    ensures place { result ≡ place_of_word count line.now }
    ensures inside { IfSome result (λ at. at < length line.now) }
    ensures apart { IfSome result (λ at. IsTrue (ends_blank true (take at line.now))) }
{
    let mut left = count;
    let mut is_apart = true;
    for (at, byte) in line.iter().enumerate() {
        let is_blank = is_blank_byte(*byte);
        if is_apart && !is_blank {
            if left == 0 {
                return Some(at);
            }
            left -= 1;
        }
        is_apart = is_blank;
    }
    None
}
