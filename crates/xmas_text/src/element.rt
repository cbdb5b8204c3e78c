// Elements and the items inside them.
use crate::var::{GroupText, ShownText};
use mix_tree::Label;
use std::marker::Model;

/// An element as it is written. Seen as its tags, its group label and what stands inside.
#[cycle(element)]
#[derive(Drop)]
pub struct ElementText {
    /// The place of the `<` of the opening tag.
    pub at: usize,
    /// The name in the opening tag.
    pub name: Label,
    /// The items in order.
    pub items: Vec<ItemText>,
    /// The place of the `<` of the closing tag.
    pub close_at: usize,
    /// The name in the closing tag, which may be another one.
    pub close_name: Label,
    /// The element's group label, where it has one.
    pub group: Option<GroupText>,
}

/// An item of an element.
#[cycle(element)]
#[derive(Drop)]
pub enum ItemText {
    /// An element.
    Element(ElementText),
    /// A variable: the node that it is bound to.
    Node(ShownText),
    /// `label` and a variable: that node's label.
    LabelOf(ShownText),
    /// A quoted label.
    Text(Label),
}

impl Model for ElementText {
    ghost use Rattle.xmas_text.specs.Contents.{ElementForm};
    ghost use Rattle.xmas_text.specs.ElementCodes.{coded_element};

    ghost Value = { ElementForm };

    ghost coded = { coded_element };

    ghost use Rattle.xmas_text.specs.Elements.{contents_of};

    ghost view = { λ e. record { at = e.at; name = e.name; contents = contents_of e.items.items; close_at = e.close_at; close_name = e.close_name; group = e.group } };

    ghost use Rattle.xmas_text.specs.ElementSizes.{element_size};

    ghost size = { element_size };

    ghost use Rattle.std.proofs.Common.{arith};
    ghost use Rattle.xmas_text.specs.ElementFalls.{most_le-contents_size};

    ghost size_decreases = { λ e h. Prim.omega (arith, most_le-contents_size e.items.items) };
}
