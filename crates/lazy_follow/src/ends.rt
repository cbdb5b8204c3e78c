// The end of the levels of a text: what the tree of a piece shows, and the node at a place below it.
ghost use Rattle.std.specs.Prelude.{◌≡◌, ◌<◌, ℕ, List, IfOk, MatchOption, length};
ghost use Rattle.lxp_core.specs.View.{View};
ghost use Rattle.plan_core.specs.PlanMade.{op_of, plan_value};
ghost use Rattle.plan_core.specs.Valid.{Kind, kinds, IsValid};
ghost use Rattle.plan_forms.specs.Forms.{piece_at};
ghost use Rattle.lazy_steps.specs.Steps.{HasCause};
ghost use Rattle.lazy_plan.specs.Bench.{state_of, ops_of, IsBenchOf};
ghost use Rattle.lazy_seek.specs.Reach.{reach};
ghost use Rattle.lazy_seek.specs.Seeks.{Sought};
ghost use Rattle.lazy_follow.specs.Ends.{makes_element_of, IsElementBy, IsTreeAt, Shows, GivesEnd};
ghost use Rattle.lazy_follow.specs.Spotted.{InSome, InEach, nodes_of};

use crate::below::node_below;
use crate::evidence::Evidence;
use crate::mark::Shown;
use lazy_plan::{Bench, WalkFault};
use lazy_seek::NodeAt;
use lxp_core::Sources;
use mix_tree::Var;
use plan_core::{Op, Piece, Plan, valid_plans_are_typed};
use plan_forms::{operator, piece};
use std::alloc::Global;

/// The tree of a piece over a binding: the number of the operator that the piece is written in, its index there, and evidence of the binding.
#[derive(Clone, Copy)]
pub(crate) struct TreeAt<'a> {
    pub op: u32,
    pub index: usize,
    pub here: &'a Evidence,
}

/// Whether an operator makes the elements of a variable.
pub(crate) fn makes_element(op: &Op, v: Var) -> bool
    ensures { result ≡ makes_element_of (op_of op.now) v }
{
    match op {
        Op::CreateElement { out, .. } => *out == v,
        _ => false,
    }
}

/// The number of the operator below a number that makes the elements of a variable; `None` where its value is no element.
fn element_of(plan: &Plan, below: u32, v: Var) -> Option<u32>
    requires valid { IsValid (plan_value plan.now) }
    requires op { below < length (plan_value plan.now).ops }
    requires bound { (i : ℕ) × (k : Kind) × (i < below) × (kinds (plan_value plan.now).ops i v ≡ Some k) }
    ensures { IsElementBy (plan_value plan.now).ops v result }
{
    valid_plans_are_typed();
    for i in 0..below {
        if makes_element(operator(plan, i), v) {
            return Some(i);
        }
    }
    None
}

/// What the tree of a piece shows.
fn shown_of(bench: &Bench, tree: &TreeAt<'_>) -> Option<Shown>
    requires { (places : List (List ℕ)) × InSome bench.now (λ st. IsTreeAt st places tree.now) }
    ensures { (places : List (List ℕ)) → InEach bench.now (λ st. IsTreeAt st places tree.now
        → MatchOption result ⊥ (Shows st (nodes_of st places tree.now.here.now) (piece_at (ops_of st) tree.now.op tree.now.index))) }
{
    valid_plans_are_typed();
    match piece(bench.plan(), tree.op, tree.index) {
        Piece::Text(_) => Some(Shown::Text(tree.op, tree.index)),
        Piece::LabelOf(v) => {
            let Some(node) = tree.here.node_of(bench, tree.here.op, *v) else {
                return None;
            };
            Some(Shown::Leaf(node))
        }
        Piece::Var(v) => {
            if let Some(element) = element_of(bench.plan(), tree.op, *v) {
                return Some(Shown::Element(element));
            }
            let Some(node) = tree.here.node_of(bench, tree.here.op, *v) else {
                return None;
            };
            Some(Shown::Whole(node))
        }
    }
}

/// What the node at a place below the tree of a piece shows; `None` where the place isn't there. It asks at most as many fills as there are steps down and to
/// the right. `Failed`: this source failed. Every earlier cursor and spot stays, whatever is answered.
pub(crate) fn end<S: Sources>(
    alloc: Global,
    bench: &mut Bench,
    s: &mut S,
    tree: &TreeAt<'_>,
    inside: &[u64],
) -> Result<Option<Shown>, WalkFault>
    requires bench { IsBenchOf (S.view s.old) bench.old }
    requires tree { (places : List (List ℕ)) × IsTreeAt (state_of (S.view s.old) bench.old) places tree.now }
    ensures sought { Sought S.view S.came_from (reach inside.now) s.old bench.old s.new bench.new }
    ensures cause { HasCause (ops_of (state_of (S.view s.old) bench.old)) (S.view s.old) (S.view s.new) result }
    ensures answer { (places : List (List ℕ)) → let old = state_of (S.view s.old) bench.old in let new = state_of (S.view s.new) bench.new in
        IsTreeAt old places tree.now → IfOk result (GivesEnd old new places tree.now inside.now) }
{
    let Some(shown) = shown_of(bench, tree) else {
        return Ok(None);
    };
    let Shown::Whole(node) = shown else {
        if inside.is_empty() {
            return Ok(Some(shown));
        }
        return Ok(None);
    };
    let Some(spot) = node_below(alloc, bench, s, &node, inside)? else {
        return Ok(None);
    };
    let source = node.source;
    Ok(Some(Shown::Whole(NodeAt { source, spot })))
}
