// What the levels of a text choose of lists, as the plan says without any binding.
ghost use Rattle.std.specs.Prelude.{◌≡◌, ◌<◌, ◌==◌, ℕ, List, Some, IfSome, MatchOption, length, map};
ghost use Rattle.std.specs.List.{list_any};
ghost use Rattle.plan_core.specs.PlanMade.{op_of, plan_value};
ghost use Rattle.plan_core.specs.Shapes.{shape_at};
ghost use Rattle.plan_core.specs.Valid.{Kind, kinds, outs_of, IsValid};
ghost use Rattle.plan_evidence.specs.Named.{Listing, listing, list_of};
ghost use Rattle.plan_forms.specs.Forms.{input_at, piece_at};
ghost use Rattle.lazy_follow.specs.Choosing.{HasPiece, IsChosen, IsScope, IsListBy, IsMaker, NoneMakes};
ghost use Rattle.lazy_follow.specs.Scope.{InScope};
ghost use Rattle.lazy_follow.specs.Following.{choice, list_in, value_choice, piece_choice};

use mix_tree::Var;
use node_text::Level;
use plan_core::{Op, Piece, Plan, valid_plans_are_typed};
use plan_forms::{operator, piece};

/// What a level chooses of a list.
#[derive(Clone, Copy)]
pub enum Chosen {
    /// Nothing.
    Nothing,
    /// The tree of a piece: the number of the operator that it is written in, and its index there.
    Tree(u32, usize),
    /// A member of a group: the number of the groupBy.
    Member(u32),
    /// A list of pieces that is one of the pieces: the number of the concatenate.
    Among(u32),
}

/// Whether an operator binds a variable anew.
fn binds_anew(op: &Op, v: Var) -> bool
    ensures { result ≡ list_any (λ w. w == v) (outs_of (op_of op.now)) }
{
    match op {
        Op::Source { out, .. } => *out == v,
        Op::GetDescendants { out, .. } => *out == v,
        Op::GroupBy { out, .. } => *out == v,
        Op::Concatenate { out, .. } => *out == v,
        Op::CreateElement { out, .. } => *out == v,
        Op::Select { .. } => false,
        Op::Join { .. } => false,
        Op::Project { .. } => false,
        Op::OrderBy { .. } => false,
        Op::TupleDestroy { .. } => false,
    }
}

/// The number of the operator below a number that binds a variable anew; `None` where none does.
fn maker_of(plan: &Plan, below: u32, v: Var) -> Option<u32>
    requires { below < length (plan_value plan.now).ops }
    ensures { MatchOption result (NoneMakes (plan_value plan.now).ops below v) (IsMaker (plan_value plan.now).ops below v) }
{
    for i in 0..below {
        if binds_anew(operator(plan, i), v) {
            return Some(i);
        }
    }
    None
}

/// What is chosen of a piece that is a variable's value, by a level with places or a bare one.
fn value_chosen(plan: &Plan, list: u32, index: usize, v: Var, bare: bool) -> Chosen
    requires valid { IsValid (plan_value plan.now) }
    requires piece { HasPiece (plan_value plan.now).ops list index }
    requires bound { (k : Kind) × (input_at (plan_value plan.now).ops list < list) × (kinds (plan_value plan.now).ops (input_at (plan_value plan.now).ops list) v ≡ Some k) }
    requires scope { InScope (plan_value plan.now).ops list (input_at (plan_value plan.now).ops list) }
    requires is { piece_at (plan_value plan.now).ops list index ≡ Piece.Var v }
    ensures chosen { (places : List (List ℕ)) → bare ≡ (length places == 0)
        → IsChosen (plan_value plan.now).ops result (piece_choice (plan_value plan.now).ops places (Some (Piece.Var v))) }
    ensures scope { IsScope (plan_value plan.now).ops list result }
{
    valid_plans_are_typed();
    let Some(maker) = maker_of(plan, list, v) else {
        return Chosen::Nothing;
    };
    match operator(plan, maker) {
        Op::GroupBy { .. } => Chosen::Member(maker),
        Op::Concatenate { .. } => if bare {
            Chosen::Among(maker)
        } else {
            Chosen::Nothing
        },
        _ => if bare {
            Chosen::Tree(list, index)
        } else {
            Chosen::Nothing
        },
    }
}

/// What is chosen of a piece of a concatenation, by a level with places or a bare one.
fn piece_chosen(plan: &Plan, list: u32, index: usize, bare: bool) -> Chosen
    requires valid { IsValid (plan_value plan.now) }
    requires piece { HasPiece (plan_value plan.now).ops list index }
    requires scope { InScope (plan_value plan.now).ops list (input_at (plan_value plan.now).ops list) }
    ensures chosen { (places : List (List ℕ)) → bare ≡ (length places == 0)
        → IsChosen (plan_value plan.now).ops result (piece_choice (plan_value plan.now).ops places (Some (piece_at (plan_value plan.now).ops list index))) }
    ensures scope { IsScope (plan_value plan.now).ops list result }
{
    valid_plans_are_typed();
    match piece(plan, list, index) {
        Piece::Var(v) => value_chosen(plan, list, index, *v, bare),
        Piece::LabelOf(_) => if bare {
            Chosen::Tree(list, index)
        } else {
            Chosen::Nothing
        },
        Piece::Text(_) => if bare {
            Chosen::Tree(list, index)
        } else {
            Chosen::Nothing
        },
    }
}

/// What a level chooses of the list that an operator makes.
pub(crate) fn choose(plan: &Plan, list: u32, level: &Level) -> Chosen
    requires valid { IsValid (plan_value plan.now) }
    requires list { list < length (plan_value plan.now).ops }
    ensures chosen { (l : Listing) → listing (shape_at (plan_value plan.now).ops list) ≡ Some l
        → IsChosen (plan_value plan.now).ops result (choice (plan_value plan.now).ops l level.now) }
    ensures scope { IsScope (plan_value plan.now).ops list result }
{
    match operator(plan, list) {
        Op::GroupBy { .. } => {
            if level.piece == 0 {
                Chosen::Member(list)
            } else {
                Chosen::Nothing
            }
        }
        Op::Concatenate { pieces, .. } => {
            if level.piece >= pieces.len() as u64 {
                return Chosen::Nothing;
            }
            piece_chosen(plan, list, level.piece as usize, level.tuple.is_empty())
        }
        _ => Chosen::Nothing,
    }
}

/// The operator below a number that makes a list of a variable; `None` where none does.
pub(crate) fn list_maker(plan: &Plan, below: u32, v: Var) -> Option<u32>
    requires valid { IsValid (plan_value plan.now) }
    requires op { below < length (plan_value plan.now).ops }
    requires bound { (i : ℕ) × (k : Kind) × (i < below) × (kinds (plan_value plan.now).ops i v ≡ Some k) }
    ensures list { IsListBy (plan_value plan.now).ops (list_of (plan_value plan.now).ops v) result }
    ensures scope { IfSome result (λ n. (i : ℕ) (k : Kind) → i < below → kinds (plan_value plan.now).ops i v ≡ Some k → InScope (plan_value plan.now).ops i n) }
{
    valid_plans_are_typed();
    let Some(maker) = maker_of(plan, below, v) else {
        return None;
    };
    match operator(plan, maker) {
        Op::GroupBy { .. } => Some(maker),
        Op::Concatenate { .. } => Some(maker),
        _ => None,
    }
}

/// The operator that makes the list of a variable's element; `None` where its value is none.
fn inner_of(plan: &Plan, op: u32, v: Var) -> Option<u32>
    requires valid { IsValid (plan_value plan.now) }
    requires op { op < length (plan_value plan.now).ops }
    requires bound { (i : ℕ) × (k : Kind) × (i < op) × (kinds (plan_value plan.now).ops i v ≡ Some k) }
    ensures list { IsListBy (plan_value plan.now).ops (list_in (plan_value plan.now).ops (Piece.Var v)) result }
    ensures scope { IfSome result (λ n. (i : ℕ) (k : Kind) → i < op → kinds (plan_value plan.now).ops i v ≡ Some k → InScope (plan_value plan.now).ops i n) }
{
    valid_plans_are_typed();
    let Some(element) = maker_of(plan, op, v) else {
        return None;
    };
    match operator(plan, element) {
        Op::CreateElement { list, .. } => list_maker(plan, element, *list),
        _ => None,
    }
}

/// The operator that makes the list of the element that a piece is; `None` where it is none.
pub(crate) fn list_of_piece(plan: &Plan, op: u32, index: usize) -> Option<u32>
    requires valid { IsValid (plan_value plan.now) }
    requires piece { HasPiece (plan_value plan.now).ops op index }
    ensures list { IsListBy (plan_value plan.now).ops (list_in (plan_value plan.now).ops (piece_at (plan_value plan.now).ops op index)) result }
    ensures scope { IfSome result (λ n. InScope (plan_value plan.now).ops (input_at (plan_value plan.now).ops op) n) }
{
    valid_plans_are_typed();
    match piece(plan, op, index) {
        Piece::Var(v) => inner_of(plan, op, *v),
        Piece::LabelOf(_) => None,
        Piece::Text(_) => None,
    }
}
