//! Rules as text: their grammar, and their reader, which keeps the place of each part.
#![tactic(auto)]

mod build;
mod cond;
mod draft;
mod element;
mod fault;
mod law;
mod reading;
mod rule;
mod scan;
mod shift;
mod shift_conds;
mod shift_items;
mod stage;
mod var;

pub use cond::{CondText, OperandText};
pub use element::{ElementText, ItemText};
pub use fault::TextFault;
pub use law::no_text_spells_two_rules;
pub use reading::parse_rule;
pub use rule::{OrderText, RuleText};
pub use var::{GroupText, KeyText, ShownText, VarText};
pub use xmas_tokens::{Comparison, PathLimit, PathText};
