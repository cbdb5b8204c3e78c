// Where a reply ends in a stream of bytes.
ghost use Rattle.std.specs.Prelude.{◌≡◌, ◌↔◌, ◌≤◌, ◌<◌, ◌+◌, IsTrue, min, length, take};
ghost use Rattle.wire_frame.specs.Standing.{at_reply, at_tree, lost, step, after, before_label, before_rest, before_trees, after_reply_tag, after_tree_tag};
ghost use Rattle.wire_frame.specs.Frames.{standing_of, Ends, Frames, RepliesAreWhole, WholeIsTheReply, LostIsNoReply, PiecesAreOneText};

use crate::digits::{Digits, Numbered};

// What comes next in a reply.
#[derive(Clone, Copy, Debug, PartialEq, Eq)]
enum Next {
    // Its first byte.
    Reply,
    // The length of a label, after these bytes of it.
    Length(Digits),
    // A byte of a label, and so many more.
    Label(u32),
    // The number of trees of a list, after these bytes of it.
    Count(Digits),
    // A byte of a hole or of the number of sources, and so many more.
    Rest(u32),
    // The first byte of a tree, where trees are to come; else the reply is whole.
    Tree,
    // Nothing: no reply goes on.
    Nothing,
}

/// What the bytes that a frame took are.
#[derive(Clone, Copy, Debug, PartialEq, Eq)]
pub enum End {
    /// A whole reply.
    Whole,
    /// The first bytes of a reply, which goes on.
    Open,
    /// Bytes with which no reply shorter than 2^64 bytes begins.
    Lost,
}

/// What a frame says of a piece.
#[derive(Clone, Copy, Debug, PartialEq, Eq)]
pub struct Taken {
    /// How many bytes of the piece belong to the reply. Where it is lost, no reply goes on with the next one.
    pub count: usize,
    /// What the reply is with these bytes.
    pub end: End,
}

/// Where one stands in a reply that comes in pieces. Labels are passed over by their lengths, whatever their bytes.
#[derive(Clone, Copy, Debug, PartialEq, Eq)]
pub struct Frame {
    next: Next,
    trees: u64,
}

// How many bytes of a text of so many are passed over, where the first and so many more are to be.
fn passed(more: u32, len: usize) -> usize
    requires { 0 < len }
    ensures { result ≡ min (more + 1) len }
{
    (more as usize).saturating_add(1).min(len)
}

// Before so many trees.
fn at_trees(trees: u64) -> Frame
    ensures { standing_of result ≡ at_tree trees }
{
    Frame {
        next: Next::Tree,
        trees,
    }
}

// No reply goes on.
fn nothing() -> Frame
    ensures { standing_of result ≡ lost }
{
    Frame {
        next: Next::Nothing,
        trees: 0,
    }
}

// Before so many bytes of a label, where so many trees come after the node's children.
fn at_label(left: u32, trees: u64) -> Frame
    ensures { standing_of result ≡ before_label left trees }
{
    let next = match left.checked_sub(1) {
        Some(more) => Next::Label(more),
        None => Next::Count(Digits::None),
    };
    Frame { next, trees }
}

// Before so many bytes of a hole or of the number of sources, and then so many trees.
fn at_rest(left: u32, trees: u64) -> Frame
    ensures { standing_of result ≡ before_rest left trees }
{
    match left.checked_sub(1) {
        Some(more) => Frame {
            next: Next::Rest(more),
            trees,
        },
        None => at_trees(trees),
    }
}

// After a list's number of trees, where so many others come after them.
fn with_list(count: u32, trees: u64) -> Frame
    ensures { standing_of result ≡ before_trees (trees + count) }
{
    match trees.checked_add(count as u64) {
        Some(all) => at_trees(all),
        None => nothing(),
    }
}

// After the first byte of a reply.
fn after_reply(tag: u8) -> Frame
    ensures { standing_of result ≡ after_reply_tag tag }
{
    match tag {
        0x80 => at_rest(4, 0),
        0x81 => at_rest(40, 0),
        0x82 => Frame {
            next: Next::Count(Digits::None),
            trees: 0,
        },
        0x83..=0x86 => at_trees(0),
        _ => nothing(),
    }
}

// After the first byte of a tree, where so many others come after it.
fn after_tree(tag: u8, trees: u64) -> Frame
    ensures { standing_of result ≡ after_tree_tag tag trees }
{
    match tag {
        0 => Frame {
            next: Next::Length(Digits::None),
            trees,
        },
        1 => at_rest(40, trees),
        _ => nothing(),
    }
}

impl Frame {
    /// Before the first byte of a reply.
    pub fn new() -> Frame
        ensures { standing_of result ≡ at_reply }
    {
        Frame {
            next: Next::Reply,
            trees: 0,
        }
    }

    // Whether the reply is whole.
    fn is_whole(&self) -> bool
        ensures { IsTrue result ↔ (standing_of self.now ≡ at_tree 0) }
    {
        self.next == Next::Tree && self.trees == 0
    }

    // Whether no reply goes on.
    fn is_lost(&self) -> bool
        ensures { IsTrue result ↔ (standing_of self.now ≡ lost) }
    {
        self.next == Next::Nothing
    }

    // What the bytes so far are.
    fn end(&self) -> End
        ensures { Ends (standing_of self.now) result }
    {
        match self.next {
            Next::Tree if self.trees == 0 => End::Whole,
            Next::Nothing => End::Lost,
            _ => End::Open,
        }
    }

    // The frame after the next byte.
    fn then(self, byte: u8) -> Frame
        ensures { standing_of result ≡ step (standing_of self) byte }
    {
        let trees = self.trees;
        match self.next {
            Next::Reply => after_reply(byte),
            Next::Length(digits) => match digits.then(byte) {
                Numbered::Number(len) => at_label(len, trees),
                Numbered::Begun(digits) => Frame {
                    next: Next::Length(digits),
                    trees,
                },
            },
            Next::Label(more) => at_label(more, trees),
            Next::Count(digits) => match digits.then(byte) {
                Numbered::Number(count) => with_list(count, trees),
                Numbered::Begun(digits) => Frame {
                    next: Next::Count(digits),
                    trees,
                },
            },
            Next::Rest(more) => at_rest(more, trees),
            Next::Tree => match trees.checked_sub(1) {
                Some(others) => after_tree(byte, others),
                None => nothing(),
            },
            Next::Nothing => nothing(),
        }
    }
    // Takes the bytes that a text begins with: all that are passed over, or one. How many these are.
    fn advance(&mut self, text: &[u8]) -> usize
        requires { 0 < length text.now }
        ensures some { 0 < result }
        ensures within { result ≤ length text.now }
        ensures step { standing_of self.new ≡ after (standing_of self.old) (take result text.now) }
        ensures one { standing_of self.new ≡ lost → result ≡ 1 }
    {
        match self.next {
            Next::Label(more) => {
                let count = passed(more, text.len());
                *self = at_label(more - (count - 1) as u32, self.trees);
                count
            }
            Next::Rest(more) => {
                let count = passed(more, text.len());
                *self = at_rest(more - (count - 1) as u32, self.trees);
                count
            }
            _ => {
                *self = self.then(text[0]);
                1
            }
        }
    }

    /// Takes the bytes of a piece up to the end of the reply, or all of them. A frame that is whole takes no more, nor does one that is
    /// lost.
    pub fn take(&mut self, piece: &[u8]) -> Taken
        ensures { Frames (standing_of self.old) piece.now (standing_of self.new) result.count result.end }
    {
        let mut count = 0;
        while count < piece.len() && !self.is_whole() {
            let more = self.advance(&piece[count..]);
            if self.is_lost() {
                let end = End::Lost;
                return Taken { count, end };
            }
            count += more;
        }
        Taken {
            count,
            end: self.end(),
        }
    }
}

/// A reply shorter than 2^64 bytes is whole after its last byte and goes on before it; bytes that are whole begin no other one, and lost ones none.
pub fn replies_are_framed()
    ensures whole { RepliesAreWhole }
    ensures only { WholeIsTheReply }
    ensures lost { LostIsNoReply }
{}

/// Bytes that are taken after others are taken as if they came together.
pub fn pieces_are_one_text()
    ensures { PiecesAreOneText }
{}
