// Variables, group labels, and items that are shown by a variable.
use mix_tree::Label;
use std::marker::Model;

/// A variable where it stands.
#[derive(Drop)]
pub struct VarText {
    /// The place of the `$`.
    pub at: usize,
    /// The name, without the `$`.
    pub name: Label,
}

/// A key of a group label.
#[derive(Drop)]
pub enum KeyText {
    /// A variable: the node that it is bound to.
    Node(VarText),
    /// `label` and a variable: that node's label.
    LabelOf(VarText),
}

/// A group label. Seen as its place and its keys.
#[derive(Drop)]
pub struct GroupText {
    /// The place of the `{`.
    pub at: usize,
    /// The keys in order.
    pub keys: Vec<KeyText>,
}

impl Model for GroupText {
    ghost use Rattle.xmas_text.specs.Groups.{GroupForm};

    ghost Value = { GroupForm };

    ghost view = { λ g. record { at = g.at; keys = g.keys.items } };
}

/// A variable that is an item, or whose label is one.
#[derive(Drop)]
pub struct ShownText {
    /// The place of the item: of the `$`, or of the `l` of `label`.
    pub at: usize,
    /// The variable that is shown.
    pub var: VarText,
    /// The item's group label, where it has one.
    pub group: Option<GroupText>,
}
