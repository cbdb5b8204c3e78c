// Copies of operators.
ghost use Rattle.std.specs.Prelude.{◌≡◌, IfOk};
ghost use Rattle.plan_core.specs.PlanMade.{op_of};
ghost use Rattle.plan_core.specs.Plans.{get_descendants, join, over};
ghost use Rattle.plan_core.specs.Unary.{group_by, concatenate, create_element};

use mix_tree::{Key, Label, Operand, Test, Var};
use path_expr::{Path, copy_path};
use plan_core::{Op, Piece};
use std::alloc::{AllocError, Global};

// Copies an operand.
fn copy_operand(alloc: Global, operand: &Operand) -> Result<Operand, AllocError>
    ensures { IfOk result (λ copy. copy ≡ operand.now) }
{
    match operand {
        Operand::Var(var) => Ok(Operand::Var(*var)),
        Operand::Text(label) => Ok(Operand::Text(label.copy(alloc)?)),
    }
}

// Copies a comparison.
pub fn copy_test(alloc: Global, test: &Test) -> Result<Test, AllocError>
    ensures { IfOk result (λ copy. copy ≡ test.now) }
{
    Ok(Test {
        left: test.left,
        op: test.op,
        right: copy_operand(alloc, &test.right)?,
    })
}

// Copies comparisons.
pub fn copy_tests(alloc: Global, tests: &[Test]) -> Result<Vec<Test>, AllocError>
    ensures { IfOk result (λ copies. copies.items ≡ tests.now) }
{
    let mut copies = Vec::new(alloc);
    for test in tests {
        copies.push(copy_test(alloc, test)?)?;
    }
    Ok(copies)
}

// Copies a piece.
fn copy_piece(alloc: Global, piece: &Piece) -> Result<Piece, AllocError>
    ensures { IfOk result (λ copy. copy ≡ piece.now) }
{
    match piece {
        Piece::Var(var) => Ok(Piece::Var(*var)),
        Piece::LabelOf(var) => Ok(Piece::LabelOf(*var)),
        Piece::Text(label) => Ok(Piece::Text(label.copy(alloc)?)),
    }
}

// Copies pieces.
fn copy_pieces(alloc: Global, pieces: &[Piece]) -> Result<Vec<Piece>, AllocError>
    ensures { IfOk result (λ copies. copies.items ≡ pieces.now) }
{
    let mut copies = Vec::new(alloc);
    for piece in pieces {
        copies.push(copy_piece(alloc, piece)?)?;
    }
    Ok(copies)
}

// Copies labels.
pub fn copy_labels(alloc: Global, labels: &[Label]) -> Result<Vec<Label>, AllocError>
    ensures { IfOk result (λ copies. copies.items ≡ labels.now) }
{
    let mut copies = Vec::new(alloc);
    for label in labels {
        copies.push(label.copy(alloc)?)?;
    }
    Ok(copies)
}

// Copies a getDescendants.
fn copy_visit(
    alloc: Global,
    input: u32,
    start: Var,
    path: &Path,
    out: Var,
) -> Result<Op, AllocError>
    ensures { IfOk result (λ copy. op_of copy ≡ get_descendants input start path.now out) }
{
    Ok(Op::GetDescendants {
        input,
        start,
        path: copy_path(alloc, path)?,
        out,
    })
}

// Copies a join.
fn copy_join(alloc: Global, left: u32, right: u32, tests: &[Test]) -> Result<Op, AllocError>
    ensures { IfOk result (λ copy. op_of copy ≡ join left right tests.now) }
{
    Ok(Op::Join {
        left,
        right,
        tests: copy_tests(alloc, tests)?,
    })
}

// Copies a groupBy.
fn copy_group(
    alloc: Global,
    input: u32,
    keys: &[Key],
    piece: &Piece,
    out: Var,
) -> Result<Op, AllocError>
    ensures { IfOk result (λ copy. op_of copy ≡ over input (group_by keys.now piece.now out)) }
{
    Ok(Op::GroupBy {
        input,
        keys: Vec::from_slice(alloc, keys)?,
        piece: copy_piece(alloc, piece)?,
        out,
    })
}

// Copies a concatenate.
fn copy_lists(alloc: Global, input: u32, pieces: &[Piece], out: Var) -> Result<Op, AllocError>
    ensures { IfOk result (λ copy. op_of copy ≡ over input (concatenate pieces.now out)) }
{
    Ok(Op::Concatenate {
        input,
        pieces: copy_pieces(alloc, pieces)?,
        out,
    })
}

// Copies a createElement.
fn copy_element(
    alloc: Global,
    input: u32,
    label: &Label,
    list: Var,
    out: Var,
) -> Result<Op, AllocError>
    ensures { IfOk result (λ copy. op_of copy ≡ over input (create_element label.now list out)) }
{
    Ok(Op::CreateElement {
        input,
        label: label.copy(alloc)?,
        list,
        out,
    })
}

// Copies an operator.
pub fn copy_op(alloc: Global, op: &Op) -> Result<Op, AllocError>
    ensures { IfOk result (λ copy. op_of copy ≡ op_of op.now) }
{
    match op {
        &Op::Source { source, out } => Ok(Op::Source { source, out }),
        Op::GetDescendants {
            input,
            start,
            path,
            out,
        } => copy_visit(alloc, *input, *start, path, *out),
        Op::Select { input, test } => Ok(Op::Select {
            input: *input,
            test: copy_test(alloc, test)?,
        }),
        Op::Join { left, right, tests } => copy_join(alloc, *left, *right, tests.as_slice()),
        Op::Project { input, keys } => Ok(Op::Project {
            input: *input,
            keys: Vec::from_slice(alloc, keys)?,
        }),
        Op::GroupBy {
            input,
            keys,
            piece,
            out,
        } => copy_group(alloc, *input, keys, piece, *out),
        &Op::OrderBy { input, var, desc } => Ok(Op::OrderBy { input, var, desc }),
        Op::Concatenate { input, pieces, out } => copy_lists(alloc, *input, pieces, *out),
        Op::CreateElement {
            input,
            label,
            list,
            out,
        } => copy_element(alloc, *input, label, *list, *out),
        &Op::TupleDestroy { input, element } => Ok(Op::TupleDestroy { input, element }),
    }
}
