// Where a cursor of an operator stands.
ghost use Rattle.std.specs.Prelude.{◌≡◌, IfOk, IfErr, MatchOption};
ghost use Rattle.lazy_binding.specs.Reading.{below, count_of};
ghost use Rattle.lazy_binding.specs.declared.position.Position.{Start};
ghost use Rattle.lxp_core.specs.declared.fault.WalkFault.TheVariants.{OutOfMemory};

use lazy_descend::DescCursor;
use lxp_core::WalkFault;
use std::alloc::{AllocError, Global};
use std::rc::Rc;
use tree_buffer::Spot;

/// A place before, at or between the bindings of an operator. Places of the inputs are shared.
#[derive(Drop)]
pub enum Position {
    /// Before the first event.
    Start,
    /// At the document node of a source of this number.
    Top(u32, Spot),
    /// At the only binding of a groupBy by no keys.
    Whole,
    /// At a match of the visit below a node of the input's binding, which is in the source of this number.
    Found(u32, Rc<Position>, DescCursor),
    /// At the event at which the input stands. Such are those of a project, too, where no two bindings of its input agree by its keys.
    Pass(Rc<Position>),
    /// At the first binding of the input that has its keys, where so many keys were seen up to it.
    First(Rc<Position>, usize),
    /// At a binding of the input whose keys an earlier one has, where so many keys were seen up to it.
    Seen(Rc<Position>, usize),
    /// At the event at which the right side stands, beside a binding of the left side, where so many members of the right side were passed.
    Pair(Rc<Position>, Rc<Position>, usize),
    /// At this index of the sorted list of the input's bindings.
    Sorted(Rc<Vec<Rc<Position>>>, usize),
}

/// How far the group at hand of an operator was walked: a binding of its input, and how many keys the operator had seen up to the group.
#[derive(Drop)]
pub struct Reached {
    pub below: Rc<Position>,
    pub seen: usize,
}

/// A position that can be shared. It fails where memory runs out.
pub fn put(alloc: Global, position: Position) -> Result<Rc<Position>, WalkFault>
    ensures ok { IfOk result (λ r. r.value ≡ position) }
    ensures err { IfErr result (λ e. e ≡ OutOfMemory) }
{
    Ok(Rc::new(alloc, position)?)
}

/// The same position once more, shared. It fails where memory runs out.
pub fn share(position: &Rc<Position>) -> Result<Rc<Position>, WalkFault>
    ensures ok { IfOk result (λ r. r.value ≡ position.now.value) }
    ensures err { IfErr result (λ e. e ≡ OutOfMemory) }
{
    Ok(position.clone()?)
}

/// The position of the input in a position of an operator; of a join that of the left input. It fails where memory runs out.
pub fn inside(alloc: Global, at: &Position) -> Result<Rc<Position>, WalkFault>
    ensures ok { IfOk result (λ r. r.value ≡ below at.now) }
    ensures err { IfErr result (λ e. e ≡ OutOfMemory) }
{
    Ok(input_part(alloc, at)?)
}

/// The position of the input in a position that has one.
fn part(here: &Position) -> Option<&Rc<Position>>
    ensures { MatchOption result (below here.now ≡ Start) (λ p. p.now.value ≡ below here.now) }
{
    match here {
        Position::Found(_, below, _) => Some(below),
        Position::Pass(below) => Some(below),
        Position::First(below, _) => Some(below),
        Position::Seen(below, _) => Some(below),
        Position::Pair(l, _, _) => Some(l),
        Position::Sorted(list, at) => list.get(*at),
        _ => None,
    }
}

/// The position of the input in a position, where it fails for want of memory alone.
pub(crate) fn input_part(alloc: Global, at: &Position) -> Result<Rc<Position>, AllocError>
    ensures { IfOk result (λ r. r.value ≡ below at.now) }
{
    match part(at) {
        Some(below) => below.clone(),
        None => Ok(Rc::new(alloc, Position::Start)?),
    }
}

/// How many keys were seen up to a position.
pub fn seen_up_to(at: &Position) -> usize
    ensures { result ≡ count_of at.now }
{
    match at {
        Position::First(_, seen) => *seen,
        Position::Seen(_, seen) => *seen,
        _ => 0,
    }
}
