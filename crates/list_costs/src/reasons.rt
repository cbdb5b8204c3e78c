// Why the numbers of lists aren't promised, as it is written for people.
use crate::causes::{Blocker, Cause, causes_of};
use mix_tree::Var;
use path_expr::push_path;
use plan_class::Profiles;
use plan_core::{Op, Piece, Plan};
use std::alloc::{AllocError, Global};
use std::marker::Model;

/// Why some number of an element's list isn't promised, in words; nothing where each is, and of an operator that makes no element.
#[derive(Drop)]
pub struct Reason {
    text: Vec<u8>,
}

impl Model for Reason {
    ghost use Rattle.std.specs.Prelude.{List, ℕ};

    ghost Value = { List ℕ };

    ghost view = { λ r. r.text.items };
}

impl Reason {
    ghost use Rattle.std.specs.Prelude.{◌≡◌};

    /// Its words.
    pub fn text(&self) -> &[u8]
        ensures { result.now ≡ self.now }
    {
        self.text.as_slice()
    }
}

// The operator that binds a variable anew.
fn binder(plan: &Plan, var: Var) -> Option<&Op> {
    plan.ops.iter().find(|op| binds(op, var))
}

// Whether an operator binds a variable anew.
fn binds(op: &Op, var: Var) -> bool {
    match op {
        Op::Source { out, .. }
        | Op::GetDescendants { out, .. }
        | Op::GroupBy { out, .. }
        | Op::Concatenate { out, .. }
        | Op::CreateElement { out, .. } => *out == var,
        Op::Select { .. }
        | Op::Join { .. }
        | Op::Project { .. }
        | Op::OrderBy { .. }
        | Op::TupleDestroy { .. } => false,
    }
}

// Adds a variable: its name, or what path leads to it, or the element that it is.
fn push_var(text: &mut Vec<u8>, plan: &Plan, var: Var) -> Result<(), AllocError> {
    if let Some(name) = plan.names.get(var.number() as usize) {
        text.push(b'$')?;
        text.extend_from_slice(name.bytes())?;
        return Ok(());
    }
    match binder(plan, var) {
        Some(Op::GetDescendants { path, .. }) => {
            text.extend_from_slice(b"what ")?;
            push_path(text, path)?;
            text.extend_from_slice(b" leads to")?;
            Ok(())
        }
        Some(Op::CreateElement { label, .. }) => {
            text.push(b'<')?;
            text.extend_from_slice(label.bytes())?;
            text.push(b'>')?;
            Ok(())
        }
        _ => {
            text.extend_from_slice(b"a document")?;
            Ok(())
        }
    }
}

// Adds what a piece of a group is.
fn push_piece(text: &mut Vec<u8>, plan: &Plan, piece: &Piece) -> Result<(), AllocError> {
    match piece {
        Piece::Var(var) => push_var(text, plan, *var),
        Piece::LabelOf(var) => {
            text.extend_from_slice(b"label ")?;
            push_var(text, plan, *var)
        }
        Piece::Text(label) => {
            text.extend_from_slice(label.bytes())?;
            Ok(())
        }
    }
}

// Adds why bindings that agree by keys don't stand side by side.
fn push_blocker(text: &mut Vec<u8>, plan: &Plan, blocker: Blocker) -> Result<(), AllocError> {
    match blocker {
        Blocker::Nothing => {
            text.extend_from_slice(b" may have any number of others among them")?;
        }
        Blocker::Between(var) => {
            text.extend_from_slice(b" aren't contiguous: ")?;
            push_var(text, plan, Var::new(var))?;
            text.extend_from_slice(b" stands between and is no key")?;
        }
        Blocker::Label(var) => {
            text.extend_from_slice(b" aren't contiguous: their key is the label of ")?;
            push_var(text, plan, Var::new(var))?;
            text.extend_from_slice(b", which nodes apart may share")?;
        }
        Blocker::Again(var) => {
            text.extend_from_slice(b" aren't contiguous: ")?;
            push_var(text, plan, Var::new(var))?;
            text.extend_from_slice(b" may come again after others")?;
        }
    }
    Ok(())
}

// Adds the words of a cause.
fn push_cause(text: &mut Vec<u8>, plan: &Plan, cause: Cause) -> Result<(), AllocError> {
    match plan.ops.get(cause.op) {
        Some(Op::OrderBy { .. }) => text.extend_from_slice(b"ORDER BY sorts first"),
        Some(Op::Join { .. }) => text.extend_from_slice(b"a join reads its right side"),
        Some(Op::Select { test, .. }) => {
            text.extend_from_slice(b"the comparison of ")?;
            push_var(text, plan, test.left)?;
            text.extend_from_slice(b" may pass over any number of others")
        }
        Some(Op::GetDescendants { path, .. }) => {
            text.extend_from_slice(b"the path ")?;
            push_path(text, path)?;
            text.extend_from_slice(b" may pass over any number of others")
        }
        Some(Op::GroupBy { piece, .. }) => {
            text.extend_from_slice(b"the groups of ")?;
            push_piece(text, plan, piece)?;
            push_blocker(text, plan, cause.blocker)
        }
        Some(Op::Project { .. }) => {
            text.extend_from_slice(b"those with the same keys")?;
            push_blocker(text, plan, cause.blocker)
        }
        _ => text.extend_from_slice(b"the numbers of its parts come to more than 4294967296"),
    }
}

// The reason for a cause, if there is one. `Err`: memory.
fn reason_for(alloc: Global, plan: &Plan, cause: Option<Cause>) -> Result<Reason, AllocError> {
    let mut text = Vec::new(alloc);
    if let Some(cause) = cause {
        push_cause(&mut text, plan, cause)?;
    }
    Ok(Reason { text })
}

/// Why the lists of a plan's elements aren't promised each number, of each operator by its number; the profiles are the plan's. `Err`: memory.
pub fn reasons_of(
    alloc: Global,
    plan: &Plan,
    profiles: &Profiles,
) -> Result<Vec<Reason>, AllocError> {
    let causes = causes_of(alloc, plan, profiles)?;
    let mut reasons = Vec::new(alloc);
    for op in &plan.ops {
        let cause = match op {
            Op::CreateElement { list, .. } => causes.of_list(*list),
            _ => None,
        };
        reasons.push(reason_for(alloc, plan, cause)?)?;
    }
    Ok(reasons)
}
