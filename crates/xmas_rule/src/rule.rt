// Rules: a template over a body.
use crate::condition::{Cond, OrderBy};
use crate::template::Template;
use mix_tree::Label;

/// A rule, that is a view. `names` holds the names of its variables, without the `$`, by their numbers.
#[derive(Drop)]
pub struct Rule {
    pub template: Template,
    pub conds: Vec<Cond>,
    pub order: Option<OrderBy>,
    pub names: Vec<Label>,
}
