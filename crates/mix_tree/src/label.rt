// Labels: texts that are seen as their bytes.
ghost use Rattle.std.specs.Prelude.{◌≡◌, IfOk, MatchOption, IsUtf8};
ghost use Rattle.std.specs.Str.{bytes_eq};

use crate::label_text::{LabelText, copied, same_bytes, text_of};
use std::alloc::{AllocError, Global};
use std::marker::Model;
use std::str;

/// A label: any UTF-8 text, the empty one included, seen as its bytes. A label of up to 14 bytes lies in place.
#[derive(Drop)]
pub struct Label {
    text: LabelText,
}

impl Model for Label {
    ghost use Rattle.std.specs.Prelude.{List, ℕ};

    ghost Value = { List ℕ };

    ghost use Rattle.mix_tree.specs.LabelText.{text_bytes, IsText};

    ghost view = { λ l. text_bytes l.text };

    ghost invariant = { λ l. IsText l.text };
}

impl Label {
    /// The label of these bytes; `None` where they are not UTF-8.
    pub fn new(alloc: Global, text: &[u8]) -> Result<Option<Label>, AllocError>
        ensures { IfOk result (λ found. MatchOption found (¬ IsUtf8 text.now) (λ l. (l ≡ text.now) × IsUtf8 text.now)) }
    {
        match str::from_utf8(text) {
            Ok(_) => Ok(Some(Label::of_text(alloc, text)?)),
            Err(_) => Ok(None),
        }
    }

    /// The label of bytes that are known to be UTF-8.
    pub fn of_text(alloc: Global, text: &[u8]) -> Result<Label, AllocError>
        requires { IsUtf8 text.now }
        ensures { IfOk result (λ l. l ≡ text.now) }
    {
        Ok(Label {
            text: text_of(alloc, text)?,
        })
    }

    /// Another label of the same bytes.
    pub fn copy(&self, alloc: Global) -> Result<Label, AllocError>
        ensures { IfOk result (λ l. l ≡ self.now) }
    {
        let text = match &self.text {
            LabelText::Short(len, bytes) => LabelText::Short(*len, *bytes),
            LabelText::Long(text) => LabelText::Long(copied(alloc, text)?),
        };
        Ok(Label { text })
    }

    /// The bytes, which are UTF-8.
    pub fn bytes(&self) -> &[u8]
        ensures bytes { result.now ≡ self.now }
        ensures utf8 { ∥ IsUtf8 result.now ∥₁ }
    {
        match &self.text {
            LabelText::Short(len, bytes) => &bytes[..*len as usize],
            LabelText::Long(text) => text.as_str().as_bytes(),
        }
    }
}

/// Whether two labels have the same bytes.
pub fn same_label(a: &Label, b: &Label) -> bool
    ensures { result ≡ bytes_eq a.now b.now }
{
    match (&a.text, &b.text) {
        (LabelText::Short(m, x), LabelText::Short(n, y)) => *m == *n && same_bytes(x, y),
        _ => a.bytes() == b.bytes(),
    }
}
