// Whether a text is a reply, of any number of levels; nothing is made of it.
ghost use Rattle.std.specs.Prelude.{◌≡◌, ◌∷◌, ◌++◌};
ghost use Rattle.wire_text.specs.Heads.{ReadsHead, ReadsKids, IsTreesText, JudgesText};
ghost use Rattle.wire_text.specs.Reply.{IsReplyText};
ghost use Rattle.wire_text.specs.Sized.{Measures, IsListText};

use crate::numbers::u32_at;
use crate::utf8::{LabelEnd, label_end};

/// Why a text is none of a grammar.
#[derive(Clone, Copy, Debug, PartialEq, Eq)]
pub enum Stop {
    /// No text of the grammar goes on with the byte so many bytes before the end.
    Unexpected(usize),
    /// The text ends too early.
    Ends,
}

// Whether a text has so many bytes, whatever they are.
fn scan_sized(text: &[u8], size: usize) -> Result<(), Stop>
    ensures { Measures text.now size result }
{
    if text.len() < size {
        return Err(Stop::Ends);
    }
    if text.len() > size {
        return Err(Stop::Unexpected(text.len() - size));
    }
    Ok(())
}

// What stands after the length of a label: the label, the number of children, and what follows that.
fn kids_after(text: &[u8], len: u32) -> Result<(u32, &[u8]), Stop>
    ensures { ReadsKids text.now len result }
{
    let len = len as usize;
    match label_end(text, len) {
        LabelEnd::Whole => match u32_at(text.split_at(len).1) {
            Some(found) => Ok(found),
            None => Err(Stop::Ends),
        },
        LabelEnd::Wrong(at) => Err(Stop::Unexpected(text.len() - at)),
        LabelEnd::Cut => Err(Stop::Ends),
    }
}

// The head of the tree that a text begins with: how many children it has, and what follows the head.
fn head(text: &[u8]) -> Result<(u32, &[u8]), Stop>
    ensures { ReadsHead text.now result }
{
    let Some((tag, rest)) = text.split_first() else {
        return Err(Stop::Ends);
    };
    match *tag {
        0 => match u32_at(rest) {
            Some((len, after)) => kids_after(after, len),
            None => Err(Stop::Ends),
        },
        1 if rest.len() < 40 => Err(Stop::Ends),
        1 => Ok((0, rest.split_at(40).1)),
        _ => Err(Stop::Unexpected(text.len())),
    }
}

// Whether a text is so many trees.
fn scan_trees(text: &[u8], count: u32) -> Result<(), Stop>
    ensures { JudgesText (IsTreesText count) text.now result }
{
    let mut pending = count as u128;
    let mut rest = text;
    while pending > 0 {
        let (kids, after) = head(rest)?;
        pending = pending - 1 + kids as u128;
        rest = after;
    }
    scan_sized(rest, 0)
}

// Whether a text is a list of trees.
fn scan_list(text: &[u8]) -> Result<(), Stop>
    ensures { JudgesText IsListText text.now result }
{
    match u32_at(text) {
        Some((count, rest)) => scan_trees(rest, count),
        None => Err(Stop::Ends),
    }
}

/// Whether a text is a reply, of any number of levels.
pub fn scan(text: &[u8]) -> Result<(), Stop>
    ensures { JudgesText IsReplyText text.now result }
{
    let Some((tag, rest)) = text.split_first() else {
        return Err(Stop::Ends);
    };
    match *tag {
        0x80 => scan_sized(rest, 4),
        0x81 => scan_sized(rest, 40),
        0x82 => scan_list(rest),
        0x83..=0x86 => scan_sized(rest, 0),
        _ => Err(Stop::Unexpected(text.len())),
    }
}
