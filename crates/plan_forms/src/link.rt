// By which variables the bindings of a join's right side are looked up.
ghost use Rattle.std.specs.Prelude.{◌≡◌, ◌<◌, IfOk, length, map};
ghost use Rattle.std.specs.List.{AllByRecursion};
ghost use Rattle.plan_core.specs.PlanMade.{op_of};
ghost use Rattle.plan_core.specs.Typed.{IsTyped};
ghost use Rattle.plan_core.specs.Valid.{kinds, inputs_of};
ghost use Rattle.plan_forms.specs.Links as spec;
ghost use Rattle.plan_forms.specs.Links.{test_link, all_links, op_links};

use crate::variables::binds;
use mix_tree::{Operand, Test, TestOp, Var};
use plan_core::Op;
use std::alloc::{AllocError, Global};

/// What a comparison says of two variables that are looked up by each other: that they have the same label, or the same node.
#[derive(Clone, Copy)]
pub enum LinkKind {
    Label,
    Node,
}

/// A variable of the left side and one of the right side, where a comparison of the join says that they have the same label, or the same node.
#[derive(Clone, Copy)]
pub struct Link {
    pub left: Var,
    pub right: Var,
    pub by: LinkKind,
}

/// A side of a join.
#[derive(Clone, Copy)]
pub enum Side {
    Left,
    Right,
}

impl Link {
    /// The variable of a link on a side of its join.
    pub fn var(&self, side: Side) -> Var
        ensures { result ≡ spec.side_var side self.now }
    {
        match side {
            Side::Left => self.left,
            Side::Right => self.right,
        }
    }
}

/// The only one of these links, where it is by labels.
pub fn only_label(links: &[Link]) -> Option<Link>
    ensures { result ≡ spec.only_label links.now }
{
    match links {
        [link] => match link.by {
            LinkKind::Label => Some(*link),
            LinkKind::Node => None,
        },
        _ => None,
    }
}

/// By what a comparison lets members be looked up; only `=` and `is` do.
fn link_kind(op: TestOp) -> Option<LinkKind>
    ensures { result ≡ spec.link_kind op }
{
    match op {
        TestOp::Eq => Some(LinkKind::Label),
        TestOp::Same => Some(LinkKind::Node),
        _ => None,
    }
}

/// The link of a comparison of equal labels or of nodes, where the left side binds one of its variables alone.
fn link_of(ops: &[Op], left: u32, test: &Test) -> Option<Link>
    requires typed { IsTyped (map op_of ops.now) }
    requires op { left < length (map op_of ops.now) }
    ensures { result ≡ test_link (kinds (map op_of ops.now) left) test.now }
{
    let Operand::Var(other) = &test.right else {
        return None;
    };
    let Some(by) = link_kind(test.op) else {
        return None;
    };
    match (binds(ops, left, test.left), binds(ops, left, *other)) {
        (true, false) => Some(Link {
            left: test.left,
            right: *other,
            by,
        }),
        (false, true) => Some(Link {
            left: *other,
            right: test.left,
            by,
        }),
        _ => None,
    }
}

/// The links of a join's comparisons, in their order.
fn all_of(alloc: Global, ops: &[Op], left: u32, tests: &[Test]) -> Result<Vec<Link>, AllocError>
    requires typed { IsTyped (map op_of ops.now) }
    requires op { left < length (map op_of ops.now) }
    ensures { IfOk result (λ links. links.items ≡ all_links (kinds (map op_of ops.now) left) tests.now) }
{
    let mut links = Vec::new(alloc);
    for test in tests {
        if let Some(link) = link_of(ops, left, test) {
            links.push(link)?;
        }
    }
    Ok(links)
}

/// The links by which an operator looks members up; only a join has some.
fn join_links(alloc: Global, ops: &[Op], op: &Op) -> Result<Vec<Link>, AllocError>
    requires typed { IsTyped (map op_of ops.now) }
    requires left { AllByRecursion (λ i. i < length (map op_of ops.now)) (inputs_of (op_of op.now)) }
    ensures { IfOk result (λ links. links.items ≡ op_links (map op_of ops.now) (op_of op.now)) }
{
    match op {
        Op::Join { left, tests, .. } => all_of(alloc, ops, *left, tests),
        _ => Ok(Vec::new(alloc)),
    }
}

/// The links by which each operator of a plan looks members up.
pub fn links(alloc: Global, ops: &[Op]) -> Result<Vec<Vec<Link>>, AllocError>
    requires { IsTyped (map op_of ops.now) }
    ensures { IfOk result (λ links. map (λ of. of.items) links.items ≡ map (op_links (map op_of ops.now)) (map op_of ops.now)) }
{
    let mut links = Vec::new(alloc);
    for op in ops {
        links.push(join_links(alloc, ops, op)?)?;
    }
    Ok(links)
}
