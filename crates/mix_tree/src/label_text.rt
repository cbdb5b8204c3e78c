// How a label's bytes lie in memory.
ghost use Rattle.std.specs.Prelude.{◌≡◌, ◌≤◌, length, take, drop, string_bytes, IfOk, IsUtf8};
ghost use Rattle.std.specs.Int.{w64, from_le_bytes};
ghost use Rattle.std.specs.Str.{bytes_eq};
ghost use Rattle.mix_tree.specs.LabelText.{text_bytes, IsText};

use std::alloc::{AllocError, Global};
use std::str;

/// The most bytes that lie in the label itself. With 14 of them a label takes 16 bytes.
pub const ROOM: usize = 14;

/// A text of at most `ROOM` bytes in place, with its length, and zeros after it; or a longer one on the heap.
#[derive(Drop)]
pub enum LabelText {
    Short(u8, [u8; ROOM]),
    Long(Box<String>),
}

// The first 8 bytes as a number.
fn prefix_word(bytes: &[u8; ROOM]) -> u64
    ensures { result ≡ from_le_bytes w64 (take 8 bytes.now) }
{
    match bytes.split_first_chunk() {
        Some((prefix, _)) => u64::from_le_bytes(*prefix),
        None => unreachable!(),
    }
}

// The last 8 bytes as a number.
fn back_word(bytes: &[u8; ROOM]) -> u64
    ensures { result ≡ from_le_bytes w64 (drop 6 bytes.now) }
{
    match bytes.split_last_chunk() {
        Some((_, back)) => u64::from_le_bytes(*back),
        None => unreachable!(),
    }
}

/// Whether the same bytes lie in place. The first 8 and the last 8 of them are all.
pub fn same_bytes(a: &[u8; ROOM], b: &[u8; ROOM]) -> bool
    ensures { result ≡ bytes_eq a.now b.now }
{
    prefix_word(a) == prefix_word(b) && back_word(a) == back_word(b)
}

// A text that fits in place.
fn short(text: &[u8]) -> LabelText
    requires short { length text.now ≤ ROOM }
    requires utf8 { IsUtf8 text.now }
    ensures bytes { text_bytes result ≡ text.now }
    ensures text { IsText result }
{
    let mut bytes = [0; ROOM];
    bytes[..text.len()].copy_from_slice(text);
    LabelText::Short(text.len() as u8, bytes)
}

// A text on the heap.
fn long(alloc: Global, text: &[u8]) -> Result<LabelText, AllocError>
    requires { IsUtf8 text.now }
    ensures bytes { IfOk result (λ t. text_bytes t ≡ text.now) }
    ensures text { IfOk result (λ t. IsText t) }
{
    match str::from_utf8(text) {
        Ok(text) => Ok(LabelText::Long(Box::new(alloc, String::from_str(alloc, text)?)?)),
        Err(_) => unreachable!(),
    }
}

/// The text of these bytes.
pub fn text_of(alloc: Global, text: &[u8]) -> Result<LabelText, AllocError>
    requires { IsUtf8 text.now }
    ensures bytes { IfOk result (λ t. text_bytes t ≡ text.now) }
    ensures text { IfOk result (λ t. IsText t) }
{
    if text.len() <= ROOM {
        return Ok(short(text));
    }
    long(alloc, text)
}

/// Another text of the same bytes on the heap.
pub fn copied(alloc: Global, text: &Box<String>) -> Result<Box<String>, AllocError>
    ensures { IfOk result (λ copy. string_bytes copy.value ≡ string_bytes text.now.value) }
{
    Ok(Box::new(alloc, String::from_str(alloc, text.as_str())?)?)
}
