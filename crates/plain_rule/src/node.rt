// Nodes of source documents.
ghost use Rattle.std.specs.Prelude.{◌≡◌, IfOk, []};
ghost use Rattle.mix_tree.specs.Nodes.{document_node};

use mix_tree::Place;
use std::alloc::{AllocError, Global};
use std::marker::Model;

/// A node: the number of its source, and its place counted from the document node.
#[derive(Drop)]
pub struct Node {
    source: u32,
    place: Place,
}

impl Model for Node {
    ghost use Rattle.mix_tree.specs.Nodes.{Node};

    ghost Value = { Node };

    ghost view = { λ n. record { source = n.source; place = n.place } };
}

impl Node {
    /// The node of a source at a place.
    pub fn new(source: u32, place: Place) -> Node
        ensures { result ≡ record { source = source; place = place } }
    {
        Node { source, place }
    }

    /// The document node of a source.
    pub fn document(alloc: Global, source: u32) -> Node
        ensures { result ≡ document_node source }
    {
        Node::new(source, Place::new(Vec::new(alloc)))
    }

    /// The number of its source.
    pub fn source(&self) -> u32
        ensures { result ≡ self.now.source }
    {
        self.source
    }

    /// The node's place.
    pub fn place(&self) -> &Place
        ensures { result.now ≡ self.now.place }
    {
        &self.place
    }

    /// A copy of the node.
    pub fn copy(&self, alloc: Global) -> Result<Node, AllocError>
        ensures { IfOk result (λ copy. copy ≡ self.now) }
    {
        Ok(Node::new(self.source, copy_place(alloc, &self.place)?))
    }
}

// A copy of a place.
pub fn copy_place(alloc: Global, place: &Place) -> Result<Place, AllocError>
    ensures { IfOk result (λ copy. copy ≡ place.now) }
{
    Ok(Place::new(Vec::from_slice(alloc, place.steps())?))
}
