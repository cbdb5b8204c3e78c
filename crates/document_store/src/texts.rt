// Texts as they lie in memory.
ghost use Rattle.std.specs.Prelude.{◌≡◌, ◌<◌, ◌≤◌, ◌+◌, ◌++◌, ◌∷◌, [], length, get_or, OnOk, OnErr};
ghost use Rattle.std.specs.List.{All};
ghost use Rattle.std.specs.Str.{IsUtf8};
ghost use Rattle.document_store.specs.Texts.{texts_from, begin_at, AreKept, IsShort};

use crate::room::make_room;
use crate::spots::part;
use std::alloc::{AllocError, Global};
use std::marker::Model;

/// Texts one after another: their bytes, and where each ends. It is seen as the list of them.
#[derive(Drop)]
pub struct Texts {
    bytes: Vec<u8>,
    ends: Vec<u32>,
}

impl Model for Texts {
    ghost use Rattle.std.specs.Prelude.{ℕ, List};

    ghost Value = { List (List ℕ) };

    ghost use Rattle.document_store.specs.Texts.{texts_from, AreKept};

    ghost view = { λ t. texts_from t.bytes.items 0 t.ends.items };

    ghost invariant = { λ t. AreKept t.bytes.items t.ends.items };
}

// Puts a text's bytes and its end after others. An error, where there is no room, leaves them as they were.
#[inline]
fn add(bytes: &mut Vec<u8>, ends: &mut Vec<u32>, text: &[u8]) -> Result<(), AllocError>
    ensures bytes { OnOk result (bytes.new.items ≡ bytes.old.items ++ text.now) }
    ensures ends { OnOk result (ends.new.items ≡ ends.old.items ++ (length bytes.old.items + length text.now) ∷ []) }
    ensures short { OnOk result (length bytes.new.items ≤ 4294967295) }
    ensures same_bytes { OnErr result (bytes.new.items ≡ bytes.old.items) }
    ensures same_ends { OnErr result (ends.new.items ≡ ends.old.items) }
{
    let Ok(end) = u32::try_from(bytes.len() + text.len()) else {
        return Err(AllocError);
    };
    make_room(bytes, text.len())?;
    make_room(ends, 1)?;
    ends.push(end)?;
    bytes.extend_from_slice(text)?;
    Ok(())
}

// Where the text at an index begins.
#[inline]
fn begin_at(ends: &[u32], i: usize) -> usize
    requires { i < length ends.now }
    ensures { result ≡ begin_at 0 ends.now i }
{
    if i == 0 {
        return 0;
    }
    ends[i - 1] as usize
}

// The bytes of the text at an index.
#[inline]
fn text_at<'a>(bytes: &'a [u8], ends: &[u32], i: usize) -> &'a [u8]
    requires kept { AreKept bytes.now ends.now }
    requires inside { i < length ends.now }
    ensures bytes { result.now ≡ get_or (texts_from bytes.now 0 ends.now) i [] }
    ensures utf8 { ∥ IsUtf8 result.now ∥₁ }
{
    let from = begin_at(ends, i);
    let to = ends[i] as usize;
    part(bytes, from, to)
}

impl Texts {
    /// A list of no texts.
    pub fn new(alloc: Global) -> Texts
        ensures { result ≡ [] }
    {
        Texts {
            bytes: Vec::new(alloc),
            ends: Vec::new(alloc),
        }
    }

    /// How many texts there are.
    #[inline]
    pub fn len(&self) -> usize
        ensures { result ≡ length self.now }
    {
        self.ends.len()
    }

    /// Puts a text after the others. It fails where memory runs out and where the texts have 4 GB, and leaves them as they were
    /// then.
    #[inline]
    pub fn push(&mut self, text: &[u8]) -> Result<(), AllocError>
        requires { IsUtf8 text.now }
        ensures ok { OnOk result (self.new ≡ self.old ++ text.now ∷ []) }
        ensures err { OnErr result (self.new ≡ self.old) }
    {
        add(&mut self.bytes, &mut self.ends, text)?;
        Ok(())
    }

    /// The text at an index.
    #[inline]
    pub fn text(&self, i: usize) -> &[u8]
        requires { i < length self.now }
        ensures bytes { result.now ≡ get_or self.now i [] }
        ensures utf8 { ∥ IsUtf8 result.now ∥₁ }
    {
        text_at(&self.bytes, &self.ends, i)
    }

    /// The law that each text is shorter than 2^32.
    #[inline]
    pub fn bounds(&self)
        ensures { All IsShort self.now }
    {
        let _texts = self.ends.len();
    }

    /// Gives back the room that is not used.
    pub fn shrink(&mut self)
        ensures { self.new ≡ self.old }
    {
        self.bytes.shrink_to_fit();
        self.ends.shrink_to_fit();
    }
}
