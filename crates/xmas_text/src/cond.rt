// The conditions of a rule as they are written.
use crate::var::VarText;
use mix_tree::Label;
use xmas_tokens::{Comparison, PathText};

/// What stands after an operator.
#[derive(Drop)]
pub enum OperandText {
    /// A variable.
    Var(VarText),
    /// A quoted label.
    Text(Label),
}

/// A condition of a rule's body.
#[derive(Drop)]
pub enum CondText {
    /// A path leads from the root of a source's document to the variable.
    FromSource {
        /// The place of the source's name.
        at: usize,
        /// The source's name.
        source: Label,
        /// The path from the root of the source's document.
        path: PathText,
        /// The variable that it binds.
        var: VarText,
    },
    /// A path leads from a variable to another one.
    FromVar {
        /// The variable that it leads from.
        start: VarText,
        /// The path from one variable to the other.
        path: PathText,
        /// The variable that it binds.
        var: VarText,
    },
    /// A variable is compared with an operand.
    Compare {
        /// The variable on the left.
        left: VarText,
        /// The operator.
        op: Comparison,
        /// The operand on the right.
        right: OperandText,
    },
}
