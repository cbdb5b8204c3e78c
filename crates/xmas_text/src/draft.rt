// A rule that is being built, token by token.
ghost use Rattle.std.specs.Prelude.{◌≡◌};
ghost use Rattle.xmas_text.specs.Drafts as drafts;

use crate::cond::CondText;
use crate::element::ItemText;
use crate::rule::OrderText;
use crate::var::{GroupText, VarText};
use mix_tree::Label;
use std::alloc::Global;
use xmas_tokens::{Comparison, PathText};

/// What a condition begins with.
#[derive(Drop)]
pub enum StartText {
    /// A source's name at a place.
    Source(usize, Label),
    /// A variable.
    Var(VarText),
}

/// An element whose closing tag has not come.
#[derive(Drop)]
pub struct OpenElement {
    /// The place of the element's `<`.
    pub at: usize,
    /// The element's name.
    pub name: Label,
    /// The items before the element.
    pub before: Vec<ItemText>,
}

/// What has been read of the part at hand.
#[derive(Drop)]
pub enum Pending {
    /// Nothing, between items.
    Items,
    /// `label` at a place, as an item.
    Labelled(usize),
    /// An item with its group label so far.
    Keys(ItemText, GroupText),
    /// An item with its group label so far, of which the last word is `label`.
    KeyLabel(ItemText, GroupText),
    /// Nothing, where a condition begins.
    Cond,
    /// The first word of a condition.
    CondFrom(StartText),
    /// The first word of a condition, and a path.
    CondPath(StartText, PathText),
    /// A variable and an operator.
    Compared(VarText, Comparison),
    /// Nothing, after a condition.
    Done,
}

/// The parts of a rule that have been read whole.
#[derive(Drop)]
pub struct Built {
    /// The open elements, the outermost first.
    pub open: Vec<OpenElement>,
    /// The items inside the innermost of them.
    pub items: Vec<ItemText>,
    /// The conditions that were read whole.
    pub conds: Vec<CondText>,
    /// The order, where one was read.
    pub order: Option<OrderText>,
}

/// A rule that is being built.
#[derive(Drop)]
pub struct Draft {
    /// What has been read whole.
    pub built: Built,
    /// What has been read of the part at hand.
    pub pending: Pending,
}

impl Draft {
    /// The draft before a text.
    pub fn new(alloc: Global) -> Draft
        ensures { drafts.draft_in result ≡ drafts.empty }
    {
        let built = Built {
            open: Vec::new(alloc),
            items: Vec::new(alloc),
            conds: Vec::new(alloc),
            order: None,
        };
        Draft {
            built,
            pending: Pending::Items,
        }
    }
}
