// Paths.
ghost use Rattle.std.specs.Prelude.{◌≡◌};
ghost use Rattle.path_expr.specs.Node.{form_of};

use mix_tree::Label;
use std::marker::Model;

/// A path: which lists of labels lead from a node to one below it. Seen as its head and its members.
#[cycle(path)]
#[derive(Drop)]
pub struct Path {
    node: Node,
}

/// What a path is.
#[cycle(path)]
#[derive(Drop)]
pub enum Node {
    /// The label alone.
    Name(Label),
    /// Any one label.
    Any,
    /// What the members describe, one after another.
    Seq(Vec<Path>),
    /// What one of the members describes.
    Alt(Vec<Path>),
    /// What the member describes, any number of times.
    Star(Box<Path>),
    /// What the member describes, at least once.
    Plus(Box<Path>),
    /// What the member describes, or nothing.
    Opt(Box<Path>),
}

impl Model for Path {
    ghost use Rattle.path_expr.specs.Form.{Form};
    ghost use Rattle.path_expr.specs.Codes.{coded_form};
    ghost use Rattle.path_expr.specs.Size.{form_size};

    ghost Value = { Form };

    ghost coded = { coded_form };

    ghost use Rattle.path_expr.specs.Node.{form_of};

    ghost view = { λ p. form_of p.node };

    ghost size = { form_size };

    ghost use Rattle.path_expr.specs.Weight.{node_falls};

    ghost size_decreases = { λ p h. node_falls p.node };
}

impl Path {
    /// The path of a node.
    pub fn new(node: Node) -> Path
        ensures { result ≡ form_of node }
    {
        Path { node }
    }

    /// What the path is.
    pub fn node(&self) -> &Node
        ensures { form_of result.now ≡ self.now }
    {
        &self.node
    }
}
