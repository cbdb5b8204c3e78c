// Making the value of a text that is a reply.
ghost use Rattle.std.specs.Prelude.{◌≡◌, ◌++◌, ◌<◌, ◌^◌, ℕ, List, IfOk, IfErr, IfSome, length};
ghost use Rattle.wire_text.specs.declared.building.Unbuilt.TheVariants.{OutOfMemory};
ghost use Rattle.wire_text.specs.Wired.{Wired, count_of};
ghost use Rattle.wire_text.specs.Bytes.{IsHole, AreTrees, hole_bytes, label_bytes, list_bytes, trees_bytes};
ghost use Rattle.wire_text.specs.Reply.{Said, SpellsReply};
ghost use Rattle.wire_text.specs.Building.{BuildsTree, BuildsTrees, BuildsList, BuildsReply};

use crate::ReplyFault;
use crate::numbers::{u32_at, u128_at, words_at};
use crate::reply::{Hole, Reply, WireTree};
use mix_tree::Label;
use std::alloc::{AllocError, AllocFailed, Global};

/// The most levels that a list may have.
const LEVELS: u32 = 200;

/// Why no value was made of a text that is one of the grammar.
#[derive(Clone, Copy, Debug, PartialEq, Eq)]
pub enum Unbuilt {
    /// A tree below the last level begins so many bytes before the end.
    TooDeep(usize),
    OutOfMemory,
}

impl From<AllocError> for Unbuilt {
    ghost from_gives = { λ _ e. e ≡ OutOfMemory };

    fn from(_: AllocError) -> Self {
        Unbuilt::OutOfMemory
    }
}

impl<T: Drop> From<AllocFailed<T>> for Unbuilt {
    ghost from_gives = { λ _ e. e ≡ OutOfMemory };

    fn from(_: AllocFailed<T>) -> Self {
        Unbuilt::OutOfMemory
    }
}

// The hole and its weight at the beginning of a text. `None` where there are fewer bytes.
fn hole_at(bytes: &[u8]) -> Option<(Hole, &[u8])>
    ensures hole { IfSome result (λ p. IsHole p.0.id × (bytes.now ≡ hole_bytes p.0.id p.0.weight ++ p.1.now)) }
    ensures fits { IfSome result (λ p. p.0.weight < 2 ^ 128) }
{
    let (id, rest) = words_at(bytes)?;
    let (weight, rest) = u128_at(rest)?;
    Some((Hole { id, weight }, rest))
}

// The label at the beginning of a text, and what follows it.
fn build_label(alloc: Global, bytes: &[u8]) -> Result<(Label, &[u8]), Unbuilt>
    ensures label { IfOk result (λ p. (length p.0 < 2 ^ 32) × (bytes.now ≡ label_bytes p.0 ++ p.1.now)) }
    ensures memory { IfErr result (λ e. e ≡ Unbuilt.OutOfMemory) }
{
    let Some((len, rest)) = u32_at(bytes) else {
        return Err(Unbuilt::OutOfMemory);
    };
    if rest.len() < len as usize {
        return Err(Unbuilt::OutOfMemory);
    }
    let (text, rest) = rest.split_at(len as usize);
    match Label::new(alloc, text)? {
        Some(label) => Ok((label, rest)),
        None => Err(Unbuilt::OutOfMemory),
    }
}

// The tree at the beginning of a text, of at most so many levels, and what follows it.
#[cycle(build)]
fn build_tree(alloc: Global, levels: u32, bytes: &[u8]) -> Result<(WireTree, &[u8]), Unbuilt>
    ensures { (o : Wired) (y : List ℕ) → AreTrees o → count_of o ≡ 1 → bytes.now ≡ trees_bytes o ++ y
        → BuildsTree levels o y bytes.now result }
{
    if levels == 0 {
        return Err(Unbuilt::TooDeep(bytes.len()));
    }
    let Some((tag, rest)) = bytes.split_first() else {
        return Err(Unbuilt::OutOfMemory);
    };
    if *tag == 1 {
        return match hole_at(rest) {
            Some((hole, after)) => Ok((WireTree::Hole(hole), after)),
            None => Err(Unbuilt::OutOfMemory),
        };
    }
    let (label, rest) = build_label(alloc, rest)?;
    let Some((count, rest)) = u32_at(rest) else {
        return Err(Unbuilt::OutOfMemory);
    };
    let (kids, rest) = build_trees(alloc, levels - 1, count, rest)?;
    Ok((WireTree::Node { label, kids }, rest))
}

// So many trees at the beginning of a text, of at most so many levels, and what follows them.
#[cycle(build)]
fn build_trees(
    alloc: Global,
    levels: u32,
    count: u32,
    bytes: &[u8],
) -> Result<(Vec<WireTree>, &[u8]), Unbuilt>
    ensures { (o : Wired) (y : List ℕ) → AreTrees o → count_of o ≡ count → bytes.now ≡ trees_bytes o ++ y
        → BuildsTrees levels o y bytes.now result }
{
    let mut trees = Vec::new(alloc);
    let mut rest = bytes;
    for i in 0..count {
        let (tree, after) = build_tree(alloc, levels, rest)?;
        trees.push(tree)?;
        rest = after;
    }
    Ok((trees, rest))
}

// The list that a text is.
fn build_list(alloc: Global, text: &[u8]) -> Result<Vec<WireTree>, Unbuilt>
    ensures { (o : Wired) → count_of o < 2 ^ 32 → AreTrees o → text.now ≡ list_bytes o → BuildsList o text.now result }
{
    let Some((count, rest)) = u32_at(text) else {
        return Err(Unbuilt::OutOfMemory);
    };
    let (trees, _) = build_trees(alloc, LEVELS, count, rest)?;
    Ok(trees)
}

/// The reply that a text is, where it is one, unless it has too many levels.
pub fn build(alloc: Global, text: &[u8]) -> Result<Reply, ReplyFault>
    ensures { (r : Said) → SpellsReply text.now r → BuildsReply r result }
{
    let Some((tag, rest)) = text.split_first() else {
        return Err(ReplyFault::OutOfMemory);
    };
    match *tag {
        0x80 => match u32_at(rest) {
            Some((n, _)) => Ok(Reply::Count(n)),
            None => Err(ReplyFault::OutOfMemory),
        },
        0x81 => match hole_at(rest) {
            Some((hole, _)) => Ok(Reply::Root(hole)),
            None => Err(ReplyFault::OutOfMemory),
        },
        0x82 => match build_list(alloc, rest) {
            Ok(trees) => Ok(Reply::List(trees)),
            Err(Unbuilt::TooDeep(left)) => Err(ReplyFault::TooDeep(
                text.len().saturating_sub(left),
            )),
            Err(Unbuilt::OutOfMemory) => Err(ReplyFault::OutOfMemory),
        },
        0x83 => Ok(Reply::Failed),
        0x84 => Ok(Reply::UnknownHole),
        0x85 => Ok(Reply::NoMemory),
        0x86 => Ok(Reply::NoSource),
        _ => Err(ReplyFault::OutOfMemory),
    }
}
