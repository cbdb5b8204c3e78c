// What is written in the operators of a plan: their inputs, pieces, keys, labels and variables.
ghost use Rattle.std.specs.Prelude.{◌≡◌, ◌-◌, ◌<◌, ◌∷◌, [], IsTrue, length};
ghost use Rattle.plan_core.specs.declared.plan.Piece.TheVariants.{Var as var_piece};
ghost use Rattle.plan_core.specs.ByNumber.{op_at};
ghost use Rattle.plan_core.specs.PlanMade.{op_of, plan_value};
ghost use Rattle.plan_core.specs.Valid.{IsValid};
ghost use Rattle.plan_forms.specs.Forms as forms;
ghost use Rattle.plan_forms.specs.Forms.{pieces_of, piece_at, keys_of, input_at, form, makes_list, makes_element, label_in, labels_written, shown_by, texts_written, is_text, text_of, IsLast, IsWritten};

use mix_tree::{Key, Label, Var};
use plan_core::{Op, Piece, Plan, valid_plans_are_typed};

/// The operator of a number in a plan.
pub fn operator(plan: &Plan, n: u32) -> &Op
    requires { n < length (plan_value plan.now).ops }
    ensures { op_of result.now ≡ op_at (plan_value plan.now).ops n }
{
    &plan.ops[n as usize]
}

/// The last operator of a plan.
fn ending(plan: &Plan) -> &Op
    requires { 0 < length (plan_value plan.now).ops }
    ensures { op_of result.now ≡ op_at (plan_value plan.now).ops (length (plan_value plan.now).ops - 1) }
{
    &plan.ops[plan.ops.len() - 1]
}

/// The pieces of which an operator makes its list or its groups; none of any other operator.
fn pieces_in(plan: &Plan, op: u32) -> &[Piece]
    requires op { op < length (plan_value plan.now).ops }
    requires written { IsWritten (op_at (plan_value plan.now).ops op) }
    ensures { result.now ≡ pieces_of (op_at (plan_value plan.now).ops op) }
{
    match operator(plan, op) {
        Op::GroupBy { piece, .. } => std::slice::from_ref(piece),
        Op::Concatenate { pieces, .. } => pieces,
        _ => &[],
    }
}

/// A piece of an operator's list or of its groups, by its index.
pub fn piece(plan: &Plan, op: u32, index: usize) -> &Piece
    requires op { op < length (plan_value plan.now).ops }
    requires index { index < length (pieces_of (op_at (plan_value plan.now).ops op)) }
    requires written { IsWritten (op_at (plan_value plan.now).ops op) }
    ensures { result.now ≡ piece_at (plan_value plan.now).ops op index }
{
    &pieces_in(plan, op)[index]
}

/// How many pieces a concatenation has.
pub fn count_pieces(plan: &Plan, op: u32) -> usize
    requires op { op < length (plan_value plan.now).ops }
    requires list { form (op_at (plan_value plan.now).ops op) ≡ makes_list }
    ensures { result ≡ length (pieces_of (op_at (plan_value plan.now).ops op)) }
{
    pieces_in(plan, op).len()
}

/// The input of an operator with one input, or the left one of two; 0 where it has none.
pub fn input_of(plan: &Plan, op: u32) -> u32
    requires { op < length (plan_value plan.now).ops }
    ensures { result ≡ input_at (plan_value plan.now).ops op }
{
    input_in(operator(plan, op))
}

/// The input of an operator, or the left one of two; 0 where it has none.
fn input_in(op: &Op) -> u32
    ensures { result ≡ forms.input_of (op_of op.now) }
{
    match op {
        Op::Source { .. } => 0,
        Op::GetDescendants { input, .. } => *input,
        Op::Select { input, .. } => *input,
        Op::Join { left, .. } => *left,
        Op::Project { input, .. } => *input,
        Op::GroupBy { input, .. } => *input,
        Op::OrderBy { input, .. } => *input,
        Op::Concatenate { input, .. } => *input,
        Op::CreateElement { input, .. } => *input,
        Op::TupleDestroy { input, .. } => *input,
    }
}

/// The operator at the end of a plan: its input, and the variable of its element.
pub fn last(plan: &Plan) -> (u32, Var)
    requires { IsValid (plan_value plan.now) }
    ensures { IsLast (plan_value plan.now).ops result.0 result.1 }
{
    valid_plans_are_typed();
    let op = ending(plan);
    (input_in(op), shown_in(op)[0])
}

/// The label that is written in an operator, that of its elements; none where it makes none.
fn labels_in(op: &Op) -> &[Label]
    ensures { result.now ≡ labels_written (op_of op.now) }
{
    match op {
        Op::CreateElement { label, .. } => std::slice::from_ref(label),
        _ => &[],
    }
}

/// The label of an operator's elements.
pub fn element_label(plan: &Plan, op: u32) -> &Label
    requires op { op < length (plan_value plan.now).ops }
    requires element { form (op_at (plan_value plan.now).ops op) ≡ makes_element }
    ensures { result.now ≡ label_in (op_at (plan_value plan.now).ops op) }
{
    &labels_in(operator(plan, op))[0]
}

/// The label that is written in a piece, that of a text; none where it is no text.
fn texts_in(piece: &Piece) -> &[Label]
    ensures { result.now ≡ texts_written piece.now }
{
    match piece {
        Piece::Text(label) => std::slice::from_ref(label),
        _ => &[],
    }
}

/// The label of a piece that is a text.
pub fn text(piece: &Piece) -> &Label
    requires { IsTrue (is_text piece.now) }
    ensures { result.now ≡ text_of piece.now }
{
    &texts_in(piece)[0]
}

/// The variable that an operator shows, the list of its elements or the element that is the document; none where it shows none.
fn shown_in(op: &Op) -> &[Var]
    ensures { result.now ≡ shown_by (op_of op.now) }
{
    match op {
        Op::CreateElement { list, .. } => std::slice::from_ref(list),
        Op::TupleDestroy { element, .. } => std::slice::from_ref(element),
        _ => &[],
    }
}

/// The list of an operator's elements.
pub fn element_list(plan: &Plan, op: u32) -> Var
    requires op { op < length (plan_value plan.now).ops }
    requires element { form (op_at (plan_value plan.now).ops op) ≡ makes_element }
    ensures { pieces_of (op_at (plan_value plan.now).ops op) ≡ var_piece result ∷ [] }
{
    shown_in(operator(plan, op))[0]
}

/// The keys of an operator's groups; none where it makes no groups.
pub fn group_keys(plan: &Plan, op: u32) -> &[Key]
    requires { op < length (plan_value plan.now).ops }
    ensures { result.now ≡ keys_of (op_at (plan_value plan.now).ops op) }
{
    match operator(plan, op) {
        Op::GroupBy { keys, .. } => keys,
        _ => &[],
    }
}
