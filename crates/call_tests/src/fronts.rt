// What plans that no view has show of fronts: a join is no more whole than its right side, and a project drops what comes again below an order.
use mix_tree::{Key, Var};
use path_expr::read_path;
use plan_core::{Op, Piece, key_facts};
use std::alloc::{AllocError, Global};
use std::test::Fail;

// A source operator that binds its root.
fn source(source: u32, out: u32) -> Op {
    Op::Source {
        source,
        out: Var::new(out),
    }
}

// A getDescendants along the path `a`.
fn descend(alloc: Global, input: u32, start: u32, out: u32) -> Result<Op, AllocError> {
    Ok(Op::GetDescendants {
        input,
        start: Var::new(start),
        path: read_path(alloc, b"a").map_err(|_| AllocError)?,
        out: Var::new(out),
    })
}

// Keys by the nodes of two variables.
fn nodes(alloc: Global, first: u32, second: u32) -> Result<Vec<Key>, AllocError> {
    Ok(vec![in alloc; Key::Node(Var::new(first)), Key::Node(Var::new(second))]?)
}

// A groupBy with the nodes of two variables as keys.
fn grouped(alloc: Global, input: u32, first: u32, second: u32) -> Result<Op, AllocError> {
    Ok(Op::GroupBy {
        input,
        keys: nodes(alloc, first, second)?,
        piece: Piece::Var(Var::new(0)),
        out: Var::new(9),
    })
}

// A project with the nodes of two variables as keys.
fn kept(alloc: Global, input: u32, first: u32, second: u32) -> Result<Op, AllocError> {
    Ok(Op::Project {
        input,
        keys: nodes(alloc, first, second)?,
    })
}

// A join of the nodes of the first source with those of another side, whose numbers are these; after it what is below the other side's nodes, the groups of
// that by two pairs of nodes, and the join's bindings with both nodes alone.
fn over_join(
    alloc: Global,
    ops: &mut Vec<Op>,
    right: u32,
    join: u32,
    below: u32,
) -> Result<(), AllocError> {
    ops.push(Op::Join {
        left: 1,
        right,
        tests: Vec::new(alloc),
    })?;
    ops.push(descend(alloc, join, 1, 2)?)?;
    ops.push(grouped(alloc, below, 0, 2)?)?;
    ops.push(grouped(alloc, below, 0, 1)?)?;
    ops.push(kept(alloc, join, 0, 1)?)?;
    Ok(())
}

// The nodes of two sources, those of the second sorted too, and joins of the first with the second, as it stands and sorted.
fn joined(alloc: Global) -> Result<Vec<Op>, AllocError> {
    let mut ops = vec![in alloc; source(0, 3), descend(alloc, 0, 3, 0)?, source(1, 4)]?;
    ops.push(descend(alloc, 2, 4, 1)?)?;
    ops.push(Op::OrderBy {
        input: 3,
        var: Var::new(1),
        desc: false,
    })?;
    over_join(alloc, &mut ops, 3, 5, 6)?;
    over_join(alloc, &mut ops, 4, 10, 11)?;
    ops.push(kept(alloc, 4, 1, 1)?)?;
    Ok(ops)
}

// Whether a fact holds at one place alone of sixteen.
fn holds_only_at(facts: &[bool], place: usize) -> bool {
    facts.len() == 16
        && facts
            .iter()
            .enumerate()
            .all(|(n, holds)| *holds == (n == place))
}

#[test]
fn a_join_is_no_more_whole_than_its_right_side(rt: HostRuntime) -> Result<(), Fail> {
    let alloc = rt.alloc();
    let facts = key_facts(alloc, &joined(alloc)?)?;
    assert!(rt; holds_only_at(&facts.stops, 8));
    assert!(rt; holds_only_at(&facts.apart, 9));
    Ok(())
}
