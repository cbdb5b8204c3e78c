// Whether texts are ASCII, as most are, or UTF-8.
ghost use Rattle.std.specs.Prelude.{◌≡◌, MatchBool, IsUtf8};
ghost use Rattle.std.specs.Char.{is_ascii};
ghost use Rattle.std.specs.List.{list_all};

use std::str;

/// Whether all bytes of a text are ASCII.
pub fn is_ascii_text(text: &[u8]) -> bool
    ensures { result ≡ list_all is_ascii text.now }
{
    let mut all = true;
    for byte in text {
        all &= byte.is_ascii();
    }
    all
}

/// Whether a text is UTF-8. Most are ASCII.
pub fn is_utf8_text(text: &[u8]) -> bool
    ensures { MatchBool result (IsUtf8 text.now) (¬ IsUtf8 text.now) }
{
    is_ascii_text(text) || str::from_utf8(text).is_ok()
}
