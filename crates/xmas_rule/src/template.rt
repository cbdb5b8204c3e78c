// Templates: what a rule makes.
use mix_tree::{Key, Label, Var};
use std::marker::Model;

/// An element that a rule makes: its label, its items, and its group label.
#[cycle(template)]
#[derive(Drop)]
pub struct Template {
    pub label: Label,
    pub items: Vec<Item>,
    pub keys: Vec<Key>,
}

/// What an element has an item for.
#[cycle(template)]
#[derive(Drop)]
pub enum Item {
    /// An element inside.
    Element(Template),
    /// The subtree of a variable's node.
    Node { var: Var, keys: Vec<Key> },
    /// A leaf with the label of a variable's node.
    LabelOf { var: Var, keys: Vec<Key> },
    /// A leaf with this label.
    Text(Label),
}

impl Model for Template {
    ghost use Rattle.xmas_rule.specs.Items.{Element};
    ghost use Rattle.xmas_rule.specs.Codes.{coded_element, element_size};

    ghost Value = { Element };

    ghost coded = { coded_element };

    ghost use Rattle.xmas_rule.specs.Made.{items_of};

    ghost view = { λ t. record { label = t.label; items = items_of t.items.items; keys = t.keys.items } };

    ghost size = { element_size };

    ghost use Rattle.std.proofs.Common.{arith};
    ghost use Rattle.xmas_rule.specs.Weight.{falls};

    ghost size_decreases = { λ t h. omega (arith, falls t.items.items) };
}
