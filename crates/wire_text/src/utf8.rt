// Where a label ends.
ghost use Rattle.std.specs.Prelude.{◌≡◌, ◌<◌, ◌≤◌, ◌⊎◌, ℕ, take, length, MatchBool, MatchOption};
ghost use Rattle.std.specs.Str.{IsUtf8};
ghost use Rattle.wire_text.specs.Heads.{ReadsLabelEnd};
ghost use Rattle.wire_text.specs.Characters.{IsWidth, IsSecond, Follows, IsPrefixOfCharacter, IsNoCharacterAt};

use std::str;

/// What stands where a label of so many bytes is to stand.
#[derive(Clone, Copy, Debug, PartialEq, Eq)]
pub enum LabelEnd {
    /// The label, whole.
    Whole,
    /// A byte with which no label goes on, and before it a prefix of one.
    Wrong(usize),
    /// A proper prefix of a label.
    Cut,
}

// How many bytes a character has that begins with a byte; 0, where none begins with it.
fn width_of(first: u8) -> usize
    ensures { IsWidth first result }
{
    match first {
        0..=0x7F => 1,
        0xC2..=0xDF => 2,
        0xE0..=0xEF => 3,
        0xF0..=0xF4 => 4,
        _ => 0,
    }
}

// Whether a byte may stand in a character after its first one.
fn follows(byte: u8) -> bool
    ensures { MatchBool result (Follows byte) (¬ Follows byte) }
{
    0x80 <= byte && byte < 0xC0
}

// Whether a byte may stand second in a character.
fn is_second(first: u8, second: u8) -> bool
    ensures { MatchBool result (IsSecond first second) (¬ IsSecond first second) }
{
    let least = match first {
        0xE0 => 0xA0,
        0xF0 => 0x90,
        _ => 0x80,
    };
    let most = match first {
        0xED => 0x9F,
        0xF4 => 0x8F,
        _ => 0xBF,
    };
    least <= second && second <= most
}

// The first byte with which no character of at most so many bytes goes on, where a text begins with no whole one.
fn character_fault(text: &[u8], left: usize) -> Option<usize>
    requires some { 0 < length text.now }
    requires fits { length text.now ≤ left }
    requires none { (n : ℕ) → 0 < n → IsUtf8 (take n text.now) → ⊥ }
    ensures { MatchOption result (IsPrefixOfCharacter text.now left) (IsNoCharacterAt text.now left) }
{
    let first = text[0];
    let width = width_of(first);
    if width == 0 || left < width {
        return Some(0);
    }
    if text.len() > 1 && !is_second(first, text[1]) {
        return Some(1);
    }
    if text.len() > 2 && !follows(text[2]) {
        return Some(2);
    }
    if text.len() > 3 && !follows(text[3]) {
        return Some(3);
    }
    None
}

/// Whether a text begins with a label of so many bytes, and where not, why.
pub fn label_end(text: &[u8], len: usize) -> LabelEnd
    ensures { ReadsLabelEnd text.now len result }
{
    let prefix = text.split_at(len.min(text.len())).0;
    let error = match str::from_utf8(prefix) {
        Ok(_) if prefix.len() == len => return LabelEnd::Whole,
        Ok(_) => return LabelEnd::Cut,
        Err(error) => error,
    };
    let at = error.valid_up_to();
    match character_fault(prefix.split_at(at).1, len - at) {
        Some(fault) => LabelEnd::Wrong(at + fault),
        None => LabelEnd::Cut,
    }
}
