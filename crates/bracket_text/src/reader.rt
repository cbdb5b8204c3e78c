// A reader of bracket text that puts the nodes of a document in where they are met.
ghost use Rattle.std.specs.Prelude.{◌≡◌, ◌<◌, ◌≤◌, ◌↔◌, [], ◌∷◌, ◌++◌, List, ℕ, length, false, true, cond, ◌==◌, None, slice_index, drop, IsTrue, IfOk};
ghost use Rattle.std.specs.Str.{IsUtf8, IsCharBoundary};
ghost use Rattle.mix_tree.specs.Forest.{Forest, LabelledTree, alone};
ghost use Rattle.mix_tree.specs.LabelMachine.{in_quotes, seen_from, start as start_label};
ghost use Rattle.document_store.specs.Laid.{laid, Closes};
ghost use Rattle.bracket_text.specs.Grammar.{is_blank};
ghost use Rattle.bracket_text.specs.Machine.{Frame, begins, after_tree, after_label, close_empty, leaf, step_in, whole_in, at_end, start, closed, Mode as Hand, at as state_at};
ghost use Rattle.bracket_text.specs.ReaderState.{Lies, HasTree, HasAllKids, Holds, Gives, Goes, GivesDocument, MayBegin, Pushes};

use crate::BracketFault;
use document_store::Store;
use mix_tree::{LabelPiece, begins_label, next_piece, plain_label};
use std::alloc::{AllocError, Global};

/// The most levels that a tree may have.
pub const LEVELS: usize = 200;

/// What has been read of the tree at hand.
#[derive(Clone, Copy)]
pub enum Mode {
    /// A tree has to come.
    Start,
    /// A bracket was opened: a tree or the closing bracket has to come.
    First,
    /// The label has ended, and a bracket may come.
    Named,
    /// The tree is whole.
    Closed,
}

/// A reader of bracket text: the nodes that were met, and the places of those whose brackets are open. After an error it has
/// no meaning.
#[derive(Drop)]
pub struct Reader {
    pub store: Store,
    pub open: Vec<usize>,
    pub mode: Mode,
}

// Whether a byte is a blank.
#[inline]
fn is_blank_byte(byte: u8) -> bool
    ensures { result ≡ is_blank byte }
{
    byte <= b' ' && matches!(byte, b' ' | b'\t' | b'\n' | b'\r')
}

// Puts in the node of a label between quotes, of which a place after the opening one is given, with its escapes.
fn push_escaped(store: &mut Store, text: &[u8], from: usize) -> Result<usize, BracketFault>
    requires inside { from ≤ length text.now }
    requires utf8 { IsUtf8 text.now }
    requires boundary { IsCharBoundary text.now from }
    ensures { Pushes text.now from (seen_from (in_quotes []) from (drop from text.now)) result store.old store.new }
{
    store.push(b"")?;
    let mut at = from;
    loop {
        match next_piece(text, at) {
            LabelPiece::Escape { to, byte } => {
                store.extend(&text[at..to])?;
                store.extend(&[byte])?;
                at = to + 2;
            }
            LabelPiece::Quote { to } => {
                store.extend(&text[at..to])?;
                return Ok(to + 1);
            }
            LabelPiece::Unexpected(at) => return Err(BracketFault::Unexpected(at)),
            LabelPiece::Ends => return Err(BracketFault::Ends),
        }
    }
}

// Puts in the node of the label that begins at a place, and answers the place after its spelling.
#[inline]
fn push_label(store: &mut Store, text: &[u8], at: usize) -> Result<usize, BracketFault>
    requires inside { at < length text.now }
    requires utf8 { IsUtf8 text.now }
    requires boundary { IsCharBoundary text.now at }
    requires label { IsTrue (begins (slice_index text.now at)) }
    ensures { Pushes text.now at (seen_from start_label at (drop at text.now)) result store.old store.new }
{
    if let Some(plain) = plain_label(text, at) {
        store.push(&text[plain.from..plain.to])?;
        return Ok(plain.end);
    }
    push_escaped(store, text, at + 1)
}

// The whole document: all nodes are below the document node.
fn shut_document(mut store: Store) -> Store
    ensures { Closes store 0 result }
{
    store.close(0);
    store.shrink();
    store
}

impl Reader {
    /// A reader that has read nothing: its only node is the document node.
    pub fn new(alloc: Global) -> Result<Reader, AllocError>
        ensures { IfOk result (λ r. Holds r [] start) }
    {
        let mut store = Store::new(alloc);
        store.push(b"")?;
        Ok(Reader {
            store,
            open: Vec::new(alloc),
            mode: Mode::Start,
        })
    }

    // Takes a closing bracket after the children of the innermost open tree.
    fn shut(&mut self)
        ensures { (t : LabelledTree) (o : List Frame) → HasAllKids self.old t o → Holds self.new o (closed t) }
    {
        let Some(place) = self.open.pop() else {
            return;
        };
        self.store.close(place);
        self.mode = Mode::Closed;
    }

    // Takes a byte that is no blank right after an opening bracket.
    fn close_empty(&mut self, at: usize, byte: u8) -> Result<(), BracketFault>
        ensures { (o : List Frame) → Lies self.old.store self.old.open.items [] o → Gives result at self.new (cond (byte == 93) (close_empty o) None) }
    {
        if self.open.is_empty() {
            return Err(BracketFault::Unexpected(at));
        }
        if byte == b']' {
            self.shut();
            return Ok(());
        }
        Err(BracketFault::Unexpected(at))
    }

    // Takes a byte after a whole tree.
    #[inline]
    fn close_tree(&mut self, at: usize, byte: u8) -> Result<(), BracketFault>
        ensures { (o : List Frame) (t : LabelledTree) → HasTree self.old t o → Gives result at self.new (after_tree o t byte) }
    {
        if is_blank_byte(byte) {
            self.mode = Mode::Closed;
            return Ok(());
        }
        if self.open.is_empty() {
            return Err(BracketFault::Unexpected(at));
        }
        if byte == b',' {
            self.mode = Mode::Start;
            return Ok(());
        }
        if byte == b']' {
            self.shut();
            return Ok(());
        }
        Err(BracketFault::Unexpected(at))
    }

    // Takes a byte after a label.
    #[inline(always)]
    fn close_label(&mut self, at: usize, byte: u8) -> Result<(), BracketFault>
        ensures { (o : List Frame) (l : List ℕ) → HasTree self.old (leaf l) o → Gives result at self.new (after_label o l byte) }
    {
        if is_blank_byte(byte) {
            self.mode = Mode::Named;
            return Ok(());
        }
        if byte == b'[' {
            self.open.push(self.store.len().saturating_sub(1))?;
            self.mode = Mode::First;
            return Ok(());
        }
        self.close_tree(at, byte)
    }

    // Whether a label may begin where the reader stands.
    #[inline]
    fn may_begin(&self) -> bool
        ensures { IsTrue result ↔ MayBegin self.now.mode }
    {
        matches!(self.mode, Mode::Start | Mode::First)
    }

    // Takes a byte that begins no label.
    #[inline]
    fn take_byte(&mut self, at: usize, byte: u8) -> Result<(), BracketFault>
        requires { begins byte ≡ false }
        ensures { (o : List Frame) (m : Hand) → Holds self.old o m → Gives result at self.new (step_in o m byte) }
    {
        match self.mode {
            Mode::Start if is_blank_byte(byte) => Ok(()),
            Mode::Start => Err(BracketFault::Unexpected(at)),
            Mode::First if is_blank_byte(byte) => Ok(()),
            Mode::First => self.close_empty(at, byte),
            Mode::Named => self.close_label(at, byte),
            Mode::Closed => self.close_tree(at, byte),
        }
    }

    // Takes the label that begins at a place, and the byte after it.
    #[inline]
    fn take_label(&mut self, text: &[u8], at: usize) -> Result<usize, BracketFault>
        requires inside { at < length text.now }
        requires utf8 { IsUtf8 text.now }
        requires boundary { IsCharBoundary text.now at }
        requires mode { MayBegin self.old.mode }
        requires label { IsTrue (begins (slice_index text.now at)) }
        ensures { (o : List Frame) (m : Hand) → Holds self.old o m → Goes text.now at result (state_at o m) self.new }
    {
        if self.open.len() >= LEVELS {
            return Err(BracketFault::TooDeep(at));
        }
        let end = push_label(&mut self.store, text, at)?;
        if end >= text.len() {
            self.mode = Mode::Named;
            return Ok(end);
        }
        self.close_label(end, text[end])?;
        Ok(end + 1)
    }

    /// Takes a label or a byte at a place, and answers the place after.
    #[inline]
    pub fn take(&mut self, text: &[u8], at: usize) -> Result<usize, BracketFault>
        requires inside { at < length text.now }
        requires utf8 { IsUtf8 text.now }
        requires boundary { IsCharBoundary text.now at }
        ensures { (o : List Frame) (m : Hand) → Holds self.old o m → Goes text.now at result (state_at o m) self.new }
    {
        let byte = text[at];
        if !begins_label(byte) {
            self.take_byte(at, byte)?;
            return Ok(at + 1);
        }
        if self.may_begin() {
            return self.take_label(text, at);
        }
        Err(BracketFault::Unexpected(at))
    }

    /// The document that has been read, at the end of the text.
    pub fn finish(self) -> Result<Store, BracketFault>
        ensures { (o : List Frame) (m : Hand) → Holds self o m → GivesDocument result (at_end (whole_in o m)) }
    {
        let Reader { store, open, mode } = self;
        if !open.is_empty() {
            return Err(BracketFault::Ends);
        }
        match mode {
            Mode::Start | Mode::First => Err(BracketFault::Ends),
            Mode::Named => Ok(shut_document(store)),
            Mode::Closed => Ok(shut_document(store)),
        }
    }
}
