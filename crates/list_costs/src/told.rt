// The lists of a view's answer, each with what steps in it cost.
ghost use Rattle.std.specs.Prelude.{◌≡◌, ◌++◌, IfOk};
ghost use Rattle.std.specs.List.{flat_map, list_any};
ghost use Rattle.plan_core.specs.PlanMade.{plan_value};
ghost use Rattle.plan_core.specs.Valid.{IsValid};
ghost use Rattle.plan_class.specs.Profiles.{list_in};
ghost use Rattle.list_costs.specs.Told.{groups, heading, is_piece, reason_at, said_of, standing_of, TellsLists};

use crate::answer_list::AnswerList;
use crate::lists::answer_lists;
use crate::reasons::{Reason, reasons_of};
use crate::words::{Standing, list_lines};
use browse_visit::Shape;
use mix_tree::Var;
use plan_class::{Profiles, profiles_of};
use plan_core::{Op, Piece, Plan, valid_plans_are_typed};
use std::alloc::{AllocError, Global};

// Whether a piece is of a variable.
fn is_piece(piece: &Piece, var: Var) -> bool
    ensures { result ≡ is_piece var piece.now }
{
    match piece {
        Piece::Var(of) => *of == var,
        Piece::LabelOf(_) | Piece::Text(_) => false,
    }
}

// Whether an operator takes the values of a variable together.
fn groups(op: &Op, var: Var) -> bool
    ensures { result ≡ groups var op.now }
{
    match op {
        Op::GroupBy { piece, .. } => is_piece(piece, var),
        _ => false,
    }
}

// Whether one of some operators takes the values of a variable together.
fn is_grouped(ops: &[Op], var: Var) -> bool
    ensures { result ≡ list_any (groups var) ops.now }
{
    ops.iter().any(|op| groups(op, var))
}

// How the element of a variable stands inside so many lists.
fn standing_of(ops: &[Op], depth: usize, element: Var) -> Standing
    ensures { result ≡ standing_of ops.now depth element }
{
    Standing {
        depth,
        once: depth != 0 && !is_grouped(ops, element),
    }
}

// The reason of a number; nothing where there is no such reason.
fn reason_at(reasons: &[Reason], number: usize) -> &[u8]
    ensures { result.now ≡ reason_at reasons.now number }
{
    match reasons.get(number) {
        Some(reason) => reason.text(),
        None => &[],
    }
}

// What is said of a list of the answer. `Err`: memory.
fn said_of(
    alloc: Global,
    ops: &[Op],
    profiles: &Profiles,
    reasons: &[Reason],
    list: AnswerList,
) -> Result<Vec<u8>, AllocError>
    ensures { IfOk result (λ said. said.items ≡ said_of (λ input. list_in profiles.now) ops.now reasons.now list) }
{
    let Some(
        Op::CreateElement {
            label,
            list: kids,
            out,
            ..
        },
    ) = ops.get(list.op)
    else {
        return Ok(Vec::new(alloc));
    };
    let standing = standing_of(ops, list.depth, *out);
    let reason = reason_at(reasons, list.op);
    list_lines(alloc, standing, label, profiles.of_list(*kids), reason)
}

// What is said of lists of the answer, one after another, after a heading. `Err`: memory.
fn lists_said(
    alloc: Global,
    ops: &[Op],
    profiles: &Profiles,
    reasons: &[Reason],
    lists: &[AnswerList],
) -> Result<Vec<u8>, AllocError>
    ensures { IfOk result (λ said. said.items ≡ heading ++ flat_map (said_of (λ input. list_in profiles.now) ops.now reasons.now) lists.now) }
{
    let mut said = Vec::from_slice(
        alloc,
        b"so many pieces a step in these lists asks for at most:\n",
    )?;
    for list in lists {
        let lines = said_of(alloc, ops, profiles, reasons, *list)?;
        said.extend_from_slice(&lines)?;
    }
    Ok(said)
}

/// What steps in the lists of a plan's answer cost at most over sources of these shapes, in words: after a heading a line for each list, the outer one
/// first and those inside it after it, with a reason where some number isn't promised. Each line ends with LF. `Err`: memory.
pub fn list_words(alloc: Global, shapes: &[Shape], plan: &Plan) -> Result<Vec<u8>, AllocError>
    requires { IsValid (plan_value plan.now) }
    ensures { IfOk result (λ words. TellsLists shapes.now plan.now words.items) }
{
    valid_plans_are_typed();
    let profiles = profiles_of(alloc, plan, shapes)?;
    let reasons = reasons_of(alloc, plan, &profiles)?;
    let lists = answer_lists(alloc, &plan.ops)?;
    let words = lists_said(alloc, &plan.ops, &profiles, &reasons, &lists)?;
    Ok(words)
}
