// The finished document of a view as its definition gives it, and the script that prints each of its nodes.
use crate::setting::{docs_of, rule_of_case};
use bracket_text::write_tree;
use case_text::{Fault, Part};
use mix_tree::Tree;
use plain_rule::finished_document;
use std::alloc::Global;

// More nodes than the document of a case has.
const MANY: u64 = 10_000;

/// A script that goes to each node of a document and prints it, the lines that are wanted of it, and how many nodes have a name.
#[derive(Drop)]
pub struct Course {
    pub script: String,
    pub wanted: Vec<u8>,
    named: u64,
}

// A node that has the name of a number, and is still to be printed.
#[derive(Clone, Copy)]
struct Open<'t> {
    tree: &'t Tree,
    number: u64,
}

// Puts a move to a new name after a course, and gives the name's number.
fn push_move(alloc: Global, course: &mut Course, way: &str, from: u64) -> Result<u64, Fault> {
    let number = course.named;
    course.named = number.saturating_add(1);
    let line = format!(in alloc; "n{number} = {way} n{from}\n")?;
    course.script.push_str(&line)?;
    course.wanted.extend_from_slice(b"node\n")?;
    Ok(number)
}

// Puts the print of a node after a course.
fn push_print(alloc: Global, course: &mut Course, node: Open<'_>) -> Result<(), Fault> {
    let line = format!(in alloc; "print n{}\n", node.number)?;
    course.script.push_str(&line)?;
    course.wanted.extend_from_slice(b"text ")?;
    course
        .wanted
        .extend_from_slice(&write_tree(alloc, node.tree)?)?;
    course.wanted.push(b'\n')?;
    Ok(())
}

// Puts a move to each child of a node after a course; the children are to be printed then.
fn push_children<'t>(
    alloc: Global,
    course: &mut Course,
    node: Open<'t>,
    open: &mut Vec<Open<'t>>,
) -> Result<(), Fault> {
    let mut from = node.number;
    let mut way = "down";
    let parent: &Tree = node.tree;
    for tree in &parent.kids {
        let number = push_move(alloc, course, way, from)?;
        open.push(Open { tree, number })?;
        way = "right";
        from = number;
    }
    Ok(())
}

/// The course over all nodes of a document.
pub fn course_of(alloc: Global, tree: &Tree) -> Result<Course, Fault> {
    let mut course = Course {
        script: String::from_str(alloc, "n0 = root\n")?,
        wanted: b"node\n".to_vec(alloc)?,
        named: 1,
    };
    let mut open = vec![in alloc; Open { tree, number: 0 }]?;
    for _ in 0..MANY {
        let Some(node) = open.pop() else {
            return Ok(course);
        };
        push_print(alloc, &mut course, node)?;
        push_children(alloc, &mut course, node, &mut open)?;
    }
    Err(Fault::Form)
}

/// The finished document of a case's view.
pub fn finished(alloc: Global, parts: &[Part<'_>]) -> Result<Tree, Fault> {
    let docs = docs_of(alloc, parts)?;
    let read = rule_of_case(alloc, parts)?;
    Ok(finished_document(alloc, &read.rule, &docs)?)
}
