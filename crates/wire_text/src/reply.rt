// What is replied over a wire.
ghost use Rattle.std.specs.Prelude.{◌≡◌, IfOk};
ghost use Rattle.wire_text.specs.Reply.{Said, reply_bytes, RepliesAreApart};
ghost use Rattle.wire_text.specs.Plain.{said};
ghost use Rattle.wire_text.specs.Replies.{IsWritable, ReadsReply, SpellsShallow, IsThisReply, ReadListsAreSmall};

use crate::ReplyFault;
use crate::building::build;
use crate::numbers::push_u32;
use crate::scanning::{Stop, scan};
use crate::writing::{push_hole, push_list};
use lxp_core::HoleId;
use mix_tree::Label;
use std::alloc::{AllocError, Global};

/// A hole and its weight.
#[derive(Clone, Copy, Debug, PartialEq, Eq)]
pub struct Hole {
    pub id: HoleId,
    pub weight: u128,
}

/// A member of a list of trees with holes, as `lxp_core::OpenTree`, where each hole comes with its weight.
#[derive(Drop)]
pub enum WireTree {
    Node { label: Label, kids: Vec<WireTree> },
    Hole(Hole),
}

/// What is replied to a request.
#[derive(Drop)]
pub enum Reply {
    Count(u32),
    Root(Hole),
    List(Vec<WireTree>),
    Failed,
    UnknownHole,
    NoMemory,
    NoSource,
}

/// The bytes of a reply. A list has at most 200 levels, and each label and each list in it is shorter than 2^32.
pub fn write_reply(alloc: Global, r: &Reply) -> Result<Vec<u8>, AllocError>
    requires { IsWritable (said r.now) }
    ensures { IfOk result (λ text. text.items ≡ reply_bytes (said r.now)) }
{
    let mut text = Vec::new(alloc);
    match r {
        Reply::Count(n) => {
            text.push(0x80)?;
            push_u32(&mut text, *n)?;
        }
        Reply::Root(hole) => {
            text.push(0x81)?;
            push_hole(&mut text, *hole)?;
        }
        Reply::List(trees) => {
            text.push(0x82)?;
            push_list(&mut text, trees)?;
        }
        Reply::Failed => text.push(0x83)?,
        Reply::UnknownHole => text.push(0x84)?,
        Reply::NoMemory => text.push(0x85)?,
        Reply::NoSource => text.push(0x86)?,
    }
    Ok(text)
}

/// The reply that a text is, all of it. `Unexpected` names the first byte with which no reply goes on; `Ends`: the text ends inside a
/// reply; `TooDeep` names the first tree at level 201.
pub fn read_reply(alloc: Global, text: &[u8]) -> Result<Reply, ReplyFault>
    // The answer is that of the text.
    ensures answers { ReadsReply text.now result }

    // A reply of at most 200 levels is read, unless memory runs out.
    ensures only { (r : Said) → SpellsShallow text.now r → IsThisReply result r }
{
    match scan(text) {
        Ok(()) => build(alloc, text),
        Err(Stop::Unexpected(left)) => Err(ReplyFault::Unexpected(text.len() - left)),
        Err(Stop::Ends) => Err(ReplyFault::Ends),
    }
}

/// No reply begins another, and no text is two replies.
pub fn replies_are_apart()
    ensures { RepliesAreApart }
{}

/// A list that is read is small enough for a wire: it has at most 200 levels, and each label and each list in it is shorter than 2^32.
pub fn read_lists_are_small()
    ensures { ReadListsAreSmall }
{}
