// A document as it lies in memory.
ghost use Rattle.std.specs.Prelude.{◌≡◌, ◌<◌, ◌∷◌, [], length, OnOk, OnErr};
ghost use Rattle.std.specs.Str.{IsUtf8};
ghost use Rattle.document_store.specs.Laid.{node_at, below, longer, Closes};
ghost use Rattle.document_store.specs.Shallow.{IsBounded};

use crate::room::make_room;
use crate::spots::{Spot, add, label_at, spot_at};
use std::alloc::{AllocError, Global};
use std::marker::Model;

/// The nodes of a document, which are put in in document order. It is seen as the list of them from the last to the first.
#[derive(Drop)]
pub struct Store {
    bytes: Vec<u8>,
    spots: Vec<Spot>,
}

impl Model for Store {
    ghost use Rattle.std.specs.Prelude.{List, reverse};
    ghost use Rattle.document_store.specs.Laid.{LaidNode};

    ghost Value = { List LaidNode };

    ghost use Rattle.document_store.specs.Spots.{nodes_in, IsKept};

    ghost view = { λ s. nodes_in s.bytes.items (reverse s.spots.items) };

    ghost invariant = { λ s. IsKept s.bytes.items s.spots.items };
}

impl Store {
    /// A document of no nodes.
    pub fn new(alloc: Global) -> Store
        ensures { result ≡ [] }
    {
        Store {
            bytes: Vec::new(alloc),
            spots: Vec::new(alloc),
        }
    }

    /// How many nodes there are.
    #[inline]
    pub fn len(&self) -> usize
        ensures { result ≡ length self.now }
    {
        self.spots.len()
    }

    /// Puts in a node without children. It fails where memory runs out, where the labels have 4 GB, and where there are
    /// 4,294,967,295 nodes, and leaves the document as it was then.
    #[inline(always)]
    pub fn push(&mut self, label: &[u8]) -> Result<(), AllocError>
        requires { IsUtf8 label.now }
        ensures ok { OnOk result (self.new ≡ record { label = label.now; below = 0 } ∷ self.old) }
        ensures err { OnErr result (self.new ≡ self.old) }
    {
        add(&mut self.bytes, &mut self.spots, label)?;
        Ok(())
    }

    /// Puts bytes after the label of the last node. It fails as `push` does, and leaves the document as it was then.
    pub fn extend(&mut self, piece: &[u8]) -> Result<(), AllocError>
        requires utf8 { IsUtf8 piece.now }
        requires some { 0 < length self.old }
        ensures ok { OnOk result (self.new ≡ longer piece.now self.old) }
        ensures err { OnErr result (self.new ≡ self.old) }
    {
        let Ok(end) = u32::try_from(self.bytes.len() + piece.len()) else {
            return Err(AllocError);
        };
        let last = self.spots.len() - 1;
        make_room(&mut self.bytes, piece.len())?;
        self.bytes.extend_from_slice(piece)?;
        self.spots[last].end = end;
        Ok(())
    }

    /// All nodes after a place in document order are below the node there.
    pub fn close(&mut self, place: usize)
        ensures { Closes self.old place self.new }
    {
        let len = self.spots.len();
        if place < len {
            self.spots[place].below = (len - place - 1) as u32;
        }
    }

    /// Gives back the room that is not used.
    pub fn shrink(&mut self)
        ensures { self.new ≡ self.old }
    {
        self.bytes.shrink_to_fit();
        self.spots.shrink_to_fit();
    }

    /// How many nodes are below the node after which so many stand.
    #[inline]
    pub fn below(&self, i: usize) -> usize
        requires { i < length self.now }
        ensures { result ≡ below self.now i }
    {
        spot_at(&self.spots, i).below as usize
    }

    /// The law that there are fewer than 2^32 nodes, and that each label is shorter than 2^32.
    #[inline]
    pub fn bounds(&self)
        ensures { IsBounded self.now }
    {
        let _nodes = self.spots.len();
    }

    /// The label of the node after which so many stand.
    #[inline]
    pub fn label(&self, i: usize) -> &[u8]
        requires { i < length self.now }
        ensures bytes { result.now ≡ (node_at self.now i).label }
        ensures utf8 { ∥ IsUtf8 result.now ∥₁ }
    {
        label_at(&self.bytes, &self.spots, i)
    }
}
