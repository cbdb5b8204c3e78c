// What the contracts leave to tests: that plans are written, and texts worked out by hand.
use mix_tree::{Key, Label, Operand, Test, TestOp, Var};
use path_expr::{Path, read_path};
use plan_core::{Op, Piece, Plan, write_plan};
use std::alloc::{AllocError, Global};
use std::process::Abort;
use std::test::Fail;

// The label of a text.
fn label(alloc: Global, text: &str) -> Result<Label, AllocError> {
    Label::of_text(alloc, text.as_bytes())
}

// The path that a text spells.
fn path(alloc: Global, text: &str) -> Result<Path, AllocError> {
    read_path(alloc, text.as_bytes()).map_err(|_| AllocError)
}

// A getDescendants over the operator before it.
fn descend(alloc: Global, input: u32, start: u32, text: &str, out: u32) -> Result<Op, AllocError> {
    Ok(Op::GetDescendants {
        input,
        start: Var::new(start),
        path: path(alloc, text)?,
        out: Var::new(out),
    })
}

// A comparison for equality.
fn equal(left: u32, right: Operand) -> Test {
    Test {
        left: Var::new(left),
        op: TestOp::Eq,
        right,
    }
}

// Writes a plan and compares its lines.
fn check(rt: &impl Abort, alloc: Global, plan: &Plan, lines: &[&str]) -> Result<(), Fail> {
    let mut want = Vec::new(alloc);
    for line in lines {
        want.extend_from_slice(line.as_bytes())?;
        want.push(b'\n')?;
    }
    assert_eq!(rt; write_plan(alloc, plan)?.as_slice(), want.as_slice());
    Ok(())
}

// A join with two comparisons, one with a label that is quoted.
fn odd_join(alloc: Global) -> Result<Op, Fail> {
    let text = equal(0, Operand::Text(label(alloc, "a\"b")?));
    Ok(Op::Join {
        left: 1,
        right: 0,
        tests: vec![in alloc; text, equal(0, Operand::Var(Var::new(1)))]?,
    })
}

// The order by the first variable.
fn sorted(input: u32, desc: bool) -> Op {
    Op::OrderBy {
        input,
        var: Var::new(0),
        desc,
    }
}

// A plan that no view has, with each form of a comparison, an order and a piece.
fn odd_plan(alloc: Global) -> Result<Plan, Fail> {
    let mut ops = vec![in alloc;
        Op::Source {
            source: 0,
            out: Var::new(1)
        },
        descend(alloc, 0, 1, "(a|\"b c\")*", 0)?,
        odd_join(alloc)?,
        sorted(2, true),
        sorted(3, false),
        Op::GroupBy {
            input: 4,
            keys: vec![in alloc; Key::LabelOf(Var::new(0))]?,
            piece: Piece::LabelOf(Var::new(0)),
            out: Var::new(2)
        },
    ]?;
    ops.push(Op::Concatenate {
        input: 5,
        pieces: vec![in alloc; Piece::Text(label(alloc, "t")?)]?,
        out: Var::new(3),
    })?;
    ops.push(Op::Concatenate {
        input: 6,
        pieces: Vec::new(alloc),
        out: Var::new(4),
    })?;
    Ok(Plan {
        ops,
        names: vec![in alloc; label(alloc, "A")?]?,
        sources: vec![in alloc; label(alloc, "s")?]?,
    })
}

#[test]
fn plans_that_no_view_has_are_written(rt: HostRuntime) -> Result<(), Fail> {
    let alloc = rt.alloc();
    let plan = odd_plan(alloc)?;
    let lines = [
        "0 source s -> $1",
        "1 getDescendants 0 $1 (a|\"b c\")* -> $A",
        "2 join 1 0 $A = \"a\\\"b\" AND $A = $1",
        "3 orderBy 2 $A desc",
        "4 orderBy 3 $A asc",
        "5 groupBy 4 {label $A} label $A -> $2",
        "6 concatenate 5 \"t\" -> $3",
        "7 concatenate 6 -> $4",
    ];
    check(&rt, alloc, &plan, &lines)
}
