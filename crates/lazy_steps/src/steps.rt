// The next binding of each operator.
ghost use Rattle.std.specs.Prelude.{◌≡◌};
ghost use Rattle.lazy_binding.specs.Parts.{operators};
ghost use Rattle.lazy_steps.specs.Chains.{PassesNone};
ghost use Rattle.lazy_steps.specs.Steps.{CanWalk, AdvancedOn};

use crate::chain::{descend, lift};
use crate::gather_steps::Gather;
use crate::join_steps::Join;
use crate::pass_steps::{Distinct, Filter};
use crate::path_scan::PathScan;
use crate::single_steps::{DocumentScan, next_whole};
use crate::sort_steps::Sort;
use lazy_binding::{Growing, Position, Walk};
use lxp_core::{Sources, WalkFault};
use plan_core::Op;
use std::alloc::Global;
use std::rc::Rc;

/// The first binding after a position. Operators that pass on each binding are gone through in loops, however many stand one over another.
#[cycle(walk)]
pub fn advance<S: Sources>(
    alloc: Global,
    walk: Walk<'_>,
    growing: &mut Growing,
    s: &mut S,
    from: &Rc<Position>,
) -> Result<Option<Rc<Position>>, WalkFault>
    requires { CanWalk (S.view s.old) growing.old walk from.now.value }
    ensures { AdvancedOn S.view S.came_from walk.entry from.now.value s.old growing.old s.new growing.new result }
{
    let foot = descend(walk, from);
    let below = Walk {
        fixed: walk.fixed,
        op: foot.op,
    };
    match advance_below(alloc, below, growing, s, foot.at)? {
        None => Ok(None),
        Some(found) => Ok(Some(lift(alloc, found, foot.levels)?)),
    }
}

/// The first binding after a position of an operator that does more than pass on bindings.
#[cycle(walk)]
fn advance_below<S: Sources>(
    alloc: Global,
    walk: Walk<'_>,
    growing: &mut Growing,
    s: &mut S,
    at: &Position,
) -> Result<Option<Rc<Position>>, WalkFault>
    requires can { CanWalk (S.view s.old) growing.old walk at.now }
    requires more { PassesNone (operators walk.fixed.now) walk.op }
    ensures { AdvancedOn S.view S.came_from walk.entry at.now s.old growing.old s.new growing.new result }
{
    match walk.fixed.operator(walk.op) {
        Op::Source { source, .. } => DocumentScan::new(walk, *source).next(alloc, growing, s, at),
        Op::GetDescendants {
            input,
            start,
            path,
            out,
        } => PathScan::new(walk, *input, *start, path, *out).next(alloc, growing, s, at),
        Op::Select { input, test } => {
            Filter::new(walk, *input, test).next(alloc, growing, s, at)
        }
        Op::Join { left, right, tests } => {
            Join::new(walk, *left, *right, tests).next(alloc, growing, s, at)
        }
        Op::GroupBy { keys, .. } if keys.is_empty() => next_whole(alloc, walk, growing, s, at),
        Op::Project { input, keys } => {
            Distinct::new(walk, *input, keys).next(alloc, growing, s, at)
        }
        Op::GroupBy { input, keys, .. } if !walk.fixed.stops_at(walk.op) => {
            Gather::new(walk, *input, keys).next(alloc, growing, s, at)
        }
        Op::GroupBy { input, keys, .. } => {
            Distinct::new(walk, *input, keys).next(alloc, growing, s, at)
        }
        Op::OrderBy { input, var, desc } => {
            Sort::new(walk, *input, *var, *desc).next(alloc, growing, s, at)
        }
        Op::Concatenate { .. } => unreachable!(),
        Op::CreateElement { .. } => unreachable!(),
        Op::TupleDestroy { .. } => Ok(None),
    }
}
