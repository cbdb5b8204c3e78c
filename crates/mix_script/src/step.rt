// What a line of a script asks for.
use mix_tree::Label;
use node_text::NodeData;

/// One command of a client. The client of a line without a prefix has the empty name.
#[derive(Drop)]
pub struct Step {
    pub client: Label,
    pub act: Act,
}

/// A way from a node to another: to its first child, or to its next sibling.
#[derive(Clone, Copy)]
pub enum Way {
    Down,
    Right,
}

/// The forms that the lines of a script may have: those of a walk, and with them those that write an identifier down and follow one.
#[derive(Clone, Copy)]
pub enum Forms {
    Plain,
    WithIds,
}

/// A command: `name` is the name that the node found is given, `from` the name of the node to begin at.
#[derive(Drop)]
pub enum Act {
    Root {
        name: Label,
    },
    Move {
        way: Way,
        name: Label,
        from: Label,
    },
    /// The first later sibling with a label.
    Select {
        name: Label,
        from: Label,
        label: Label,
    },
    Fetch {
        from: Label,
    },
    /// The text of a subtree.
    Print {
        from: Label,
    },
    /// The text of a node's identifier.
    Id {
        from: Label,
    },
    /// The node that the text of an identifier names, by what it says.
    At {
        name: Label,
        node: NodeData,
    },
}

/// What a line of a script comes to.
#[derive(Drop)]
pub enum LineRead {
    /// The line is passed over.
    Passed,
    Step(Step),
    /// The line is of no form.
    NoForm,
}
