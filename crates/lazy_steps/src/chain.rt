// Operators one over another that pass on each binding: the way down to the first that does more, and back up with what was found there.
ghost use Rattle.std.specs.Prelude.{◌≡◌, ◌<◌, IfOk, IfErr, MatchOption, length};
ghost use Rattle.lxp_core.specs.declared.fault.WalkFault.TheVariants.{OutOfMemory};
ghost use Rattle.lazy_binding.specs.Parts.{operators, IsFixed};
ghost use Rattle.lazy_steps.specs.Chains.{part_below, Descends, IsLifted, PassesNone};
ghost use Rattle.lazy_steps.specs.Steps.{PassesOn};

use lazy_binding::{Position, Walk, put};
use lxp_core::WalkFault;
use plan_core::Op;
use std::alloc::Global;
use std::rc::Rc;

/// Where a way down ends: an operator, the position there, and how many operators were left above it.
#[derive(Clone, Copy)]
pub(crate) struct Foot<'a> {
    pub(crate) op: usize,
    pub(crate) at: &'a Rc<Position>,
    pub(crate) levels: usize,
}

/// The input of an operator that passes on each of its bindings; `None` exactly where the operator does more.
fn passed_input(walk: Walk<'_>) -> Option<usize>
    requires fixed { IsFixed walk.fixed.now }
    requires op { walk.op < length (operators walk.fixed.now) }
    ensures { MatchOption result (PassesNone (operators walk.entry.fixed.now) walk.entry.op) (PassesOn walk.entry) }
{
    match walk.fixed.operator(walk.op) {
        Op::Concatenate { input, .. } => Some(*input as usize),
        Op::CreateElement { input, .. } => Some(*input as usize),
        Op::Project { input, .. } if walk.fixed.is_apart(walk.op) => Some(*input as usize),
        _ => None,
    }
}

/// The position of the input in a position of such an operator; before all events the same.
fn part(at: &Rc<Position>) -> &Rc<Position>
    ensures { result.now.value ≡ part_below at.now.value }
{
    let here: &Position = at;
    match here {
        Position::Pass(below) => below,
        _ => at,
    }
}

/// The way down to the first operator that does more than pass on each binding of its input. Nothing is copied on it.
pub(crate) fn descend<'a>(walk: Walk<'_>, from: &'a Rc<Position>) -> Foot<'a>
    requires fixed { IsFixed walk.fixed.now }
    requires op { walk.op < length (operators walk.fixed.now) }
    ensures way { Descends (operators walk.entry.fixed.now) walk.entry.op from.now.value result.levels result.op result.at.now.value }
    ensures last { PassesNone (operators walk.entry.fixed.now) result.op }
{
    let mut at = from;
    let mut op = walk.op;
    let mut levels = 0;
    'operators: loop {
        let here = Walk {
            fixed: walk.fixed,
            op,
        };
        match passed_input(here) {
            None => return Foot { op, at, levels },
            Some(input) => {
                at = part(at);
                op = input;
                levels += 1;
            }
        }
    }
}

/// A position that was found below so many operators, passed on by each of them.
pub(crate) fn lift(
    alloc: Global,
    found: Rc<Position>,
    levels: usize,
) -> Result<Rc<Position>, WalkFault>
    ensures ok { IfOk result (λ r. IsLifted levels found.value r.value) }
    ensures err { IfErr result (λ e. e ≡ OutOfMemory) }
{
    let mut at = found;
    'levels: for _ in 0..levels {
        at = put(alloc, Position::Pass(at))?;
    }
    Ok(at)
}
