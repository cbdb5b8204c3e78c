// Conditions: what a rule's body asks.
use mix_tree::{Test, Var};
use path_expr::Path;

/// A condition of a body.
#[derive(Drop)]
pub enum Cond {
    /// A variable is bound to the descendants of a source's document node that the path leads to.
    FromSource { source: u32, path: Path, var: Var },
    /// A variable is bound to the descendants of another variable's node that the path leads to.
    FromVar { start: Var, path: Path, var: Var },
    /// A comparison of a variable with an operand holds.
    Compare(Test),
}

/// What the bindings are ordered by: the labels of a variable's nodes, ascending or descending.
#[derive(Clone, Copy)]
pub struct OrderBy {
    pub var: Var,
    pub desc: bool,
}
