// The next binding of an orderBy.
ghost use Rattle.std.specs.Prelude.{◌≡◌, ◌<◌, IsTrue, IfOk, IfErr, Some, length};
ghost use Rattle.mix_tree.specs.Nodes.{label_at};
ghost use Rattle.plan_core.specs.Valid.{kinds, a_node};
ghost use Rattle.plan_core.specs.TolledRows.{row_node};
ghost use Rattle.lazy_steps.specs.Steps.{CanStep, CanWalk, AdvancedOn, HasCause};
ghost use Rattle.lazy_steps.specs.Orders.{AreAllOf, IsFirstSorted, RanThrough};
ghost use Rattle.lazy_binding.specs.SortedLists.{sorts};
ghost use Rattle.lazy_binding.specs.Cursors.{has_row};
ghost use Rattle.lazy_binding.specs.Parts.{operators, shape_walked, world_of, IsFixed};
ghost use Rattle.lazy_binding.specs.Reading.{HasStand, Tells};
ghost use Rattle.lxp_core.specs.declared.fault.WalkFault.TheVariants.{OutOfMemory};
ghost use Rattle.lazy_binding.specs.declared.position.Position.{Start};

use crate::sorted::sorted_at;
use crate::steps::advance;
use lazy_binding::{Growing, Labelled, Position, Walk, places, put, share, sort_labelled};
use lxp_core::{Sources, WalkFault};
use mix_tree::Var;
use std::alloc::Global;
use std::rc::Rc;

/// An orderBy: its input, and the variable by whose labels it sorts, ascending or descending.
#[derive(Clone, Copy)]
pub(crate) struct Sort<'a> {
    pub(crate) walk: Walk<'a>,
    pub(crate) input: usize,
    pub(crate) var: Var,
    pub(crate) desc: bool,
}

impl<'a> Sort<'a> {
    /// An orderBy of this input, by this variable.
    pub(crate) fn new(walk: Walk<'a>, input: u32, var: Var, desc: bool) -> Sort<'a>
        ensures { result ≡ record { walk = walk.entry; input = input; var = var; desc = desc } }
    {
        Sort {
            walk,
            input: input as usize,
            var,
            desc,
        }
    }

    /// The first of the sorted bindings of the input, or the next one, which asks nothing.
    #[cycle(walk)]
    #[inline(never)]
    pub(crate) fn next<S: Sources>(
        &self,
        alloc: Global,
        growing: &mut Growing,
        s: &mut S,
        at: &Position,
    ) -> Result<Option<Rc<Position>>, WalkFault>
        requires can { CanWalk (S.view s.old) growing.old self.now.walk at.now }
        requires is { shape_walked self.now.walk ≡ sorts self.now.input self.now.var self.now.desc }
        ensures { AdvancedOn S.view S.came_from self.now.walk at.now s.old growing.old s.new growing.new result }
    {
        match at {
            Position::Start => self.first(alloc, growing, s),
            Position::Sorted(list, index) => sorted_at(alloc, list, *index + 1),
            _ => Ok(None),
        }
    }

    /// All bindings of the input, sorted; the first of them.
    #[cycle(walk)]
    fn first<S: Sources>(
        &self,
        alloc: Global,
        growing: &mut Growing,
        s: &mut S,
    ) -> Result<Option<Rc<Position>>, WalkFault>
        requires can { CanWalk (S.view s.old) growing.old self.now.walk Start }
        requires is { shape_walked self.now.walk ≡ sorts self.now.input self.now.var self.now.desc }
        ensures { AdvancedOn S.view S.came_from self.now.walk Start s.old growing.old s.new growing.new result }
    {
        let input = Walk {
            fixed: self.walk.fixed,
            op: self.input,
        };
        let rows = labelled(alloc, input, growing, s, self.var)?;
        first_sorted(alloc, rows, self.desc)
    }
}

/// The first of these positions, once they are sorted by their labels.
#[inline(never)]
fn first_sorted(
    alloc: Global,
    rows: Vec<Labelled>,
    desc: bool,
) -> Result<Option<Rc<Position>>, WalkFault>
    ensures err { IfErr result (λ e. e ≡ OutOfMemory) }
    ensures ok { IfOk result (IsFirstSorted desc rows.items) }
{
    let mut rows = rows;
    sort_labelled(&mut rows, desc)?;
    let list = Rc::new(alloc, places(alloc, rows)?)?;
    sorted_at(alloc, &list, 0)
}

/// A position, with the label of a variable's node in its binding.
#[inline(never)]
fn labelled_at(
    alloc: Global,
    walk: Walk<'_>,
    growing: &Growing,
    at: &Rc<Position>,
    v: Var,
) -> Result<Labelled, WalkFault>
    requires fixed { IsFixed walk.fixed.now }
    requires op { walk.op < length (operators walk.fixed.now) }
    requires cursor { HasStand growing.now walk at.now.value }
    requires row { IsTrue (has_row at.now.value) }
    requires node { kinds (operators walk.fixed.now) walk.op v ≡ Some a_node }
    ensures err { IfErr result (λ e. e ≡ OutOfMemory) }
    ensures place { IfOk result (λ x. x.place.value ≡ at.now.value) }
    ensures label { IfOk result (λ x. Tells growing.now walk.entry at.now.value (λ w docs row. x.label ≡ label_at docs (row_node row v))) }
{
    let label = walk.label_of(growing, at, v).copy(alloc)?;
    let place = share(at)?;
    Ok(Labelled { label, place })
}

/// The positions at all bindings, each with the label of a variable's node.
#[cycle(walk)]
fn labelled<S: Sources>(
    alloc: Global,
    walk: Walk<'_>,
    growing: &mut Growing,
    s: &mut S,
    v: Var,
) -> Result<Vec<Labelled>, WalkFault>
    requires can { CanWalk (S.view s.old) growing.old walk Start }
    requires node { kinds (operators walk.fixed.now) walk.op v ≡ Some a_node }
    ensures ran { RanThrough S.view S.came_from (operators walk.entry.fixed.now) walk.entry.op s.old growing.old s.new growing.new }
    ensures cause { HasCause (operators walk.entry.fixed.now) (S.view s.old) (S.view s.new) result }
    ensures rows { let w = world_of (S.view s.old) growing.old in
        IfOk result (λ r. AreAllOf w (world_of (S.view s.new) growing.new) walk.entry v r.items) }
{
    let mut rows = Vec::new(alloc);
    let mut at = put(alloc, Position::Start)?;
    'events: loop {
        match advance(alloc, walk, growing, s, &at)? {
            None => return Ok(rows),
            Some(found) => {
                let row = labelled_at(alloc, walk, growing, &found, v)?;
                rows.push(row)?;
                at = found;
            }
        }
    }
}
