// Rules as they are written.
use crate::cond::CondText;
use crate::element::ElementText;
use crate::var::VarText;

/// What a rule's answers are ordered by.
#[derive(Drop)]
pub struct OrderText {
    /// The variable that orders the answers.
    pub var: VarText,
    /// Whether `DESC` stands after it.
    pub desc: bool,
}

/// A rule as it is written. Each place counts bytes from the beginning of the text.
#[derive(Drop)]
pub struct RuleText {
    /// The element after `CONSTRUCT`.
    pub template: ElementText,
    /// The conditions after `WHERE` in order.
    pub conds: Vec<CondText>,
    /// The variable after `ORDER BY`, where there is one.
    pub order: Option<OrderText>,
}
