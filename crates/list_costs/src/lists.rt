// Which lists there are in the answer of a plan.
ghost use Rattle.std.specs.Prelude.{◌≡◌, ◌-◌, ℕ, Some, IfOk, OnOk, length, slice_get};
ghost use Rattle.std.specs.List.{flat_map};
ghost use Rattle.list_costs.specs.Lists.{answer_lists, bound_lists, element_lists, lists_in, lists_with, own_lists, piece_lists};

use crate::answer_list::{AnswerList, deeper};
use crate::nested::NestedLists;
use mix_tree::Var;
use plan_core::{Op, Piece};
use std::alloc::{AllocError, Global};

// The lists in the trees of a piece.
fn piece_lists<'a>(nested: &'a NestedLists, piece: &Piece) -> &'a [AnswerList]
    ensures { result.now ≡ piece_lists (lists_in nested.now) piece.now }
{
    match piece {
        Piece::Var(var) => nested.of(*var),
        Piece::LabelOf(_) | Piece::Text(_) => &[],
    }
}

// The lists in the trees of pieces, one after another. `Err`: memory.
fn pieces_lists(
    alloc: Global,
    nested: &NestedLists,
    pieces: &[Piece],
) -> Result<Vec<AnswerList>, AllocError>
    ensures { IfOk result (λ lists. lists.items ≡ flat_map (piece_lists (lists_in nested.now)) pieces.now) }
{
    let mut lists = Vec::new(alloc);
    for piece in pieces {
        lists.extend_from_slice(piece_lists(nested, piece))?;
    }
    Ok(lists)
}

// The list of the element that the operator of a number makes over the list of a variable, and after it those inside. `Err`: memory.
fn own_lists(
    alloc: Global,
    nested: &NestedLists,
    number: usize,
    list: Var,
) -> Result<Vec<AnswerList>, AllocError>
    ensures { IfOk result (λ lists. lists.items ≡ own_lists number (lists_in nested.now) list) }
{
    let inner = deeper(alloc, nested.of(list))?;
    let mut lists = Vec::new(alloc);
    lists.push(AnswerList {
        depth: 0,
        op: number,
    })?;
    lists.extend_from_slice(&inner)?;
    Ok(lists)
}

// Adds the lists in the values of the variable that the operator of a number binds to a list or an element, if it does. `Err`: memory.
fn push_bound(
    alloc: Global,
    nested: &mut NestedLists,
    number: usize,
    op: &Op,
) -> Result<(), AllocError>
    ensures { let of = lists_in nested.old in OnOk result ((v : ℕ) → lists_in nested.new v ≡ lists_with (bound_lists number of (Some op.now)) of v) }
{
    match op {
        Op::GroupBy { piece, out, .. } => {
            let lists = Vec::from_slice(alloc, piece_lists(nested, piece))?;
            nested.insert(*out, lists)
        }
        Op::Concatenate { pieces, out, .. } => {
            let lists = pieces_lists(alloc, nested, pieces)?;
            nested.insert(*out, lists)
        }
        Op::CreateElement { list, out, .. } => {
            let lists = own_lists(alloc, nested, number, *list)?;
            nested.insert(*out, lists)
        }
        Op::Source { .. }
        | Op::GetDescendants { .. }
        | Op::Select { .. }
        | Op::Join { .. }
        | Op::Project { .. }
        | Op::OrderBy { .. }
        | Op::TupleDestroy { .. } => Ok(()),
    }
}

// The lists of the element that the last of some operators gives.
fn element_lists<'a>(nested: &'a NestedLists, ops: &[Op]) -> &'a [AnswerList]
    ensures { result.now ≡ element_lists (lists_in nested.now) (slice_get ops.now (length ops.now - 1)) }
{
    match ops.last() {
        Some(Op::TupleDestroy { element, .. }) => nested.of(*element),
        _ => &[],
    }
}

/// The lists of the answer of a plan's operators: that of the outer element first, and after each those inside it, in the order of its pieces.
/// `Err`: memory.
pub fn answer_lists(alloc: Global, ops: &[Op]) -> Result<Vec<AnswerList>, AllocError>
    ensures { IfOk result (λ lists. lists.items ≡ answer_lists ops.now) }
{
    let mut nested = NestedLists::new(alloc);
    'ops: for number in 0..ops.len() {
        push_bound(alloc, &mut nested, number, &ops[number])?;
    }
    Vec::from_slice(alloc, element_lists(&nested, ops))
}
