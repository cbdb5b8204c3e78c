// The next binding of an operator with a single binding.
ghost use Rattle.std.specs.Prelude.{◌≡◌, ℕ};
ghost use Rattle.plan_core.specs.declared.plan.Piece.{Piece};
ghost use Rattle.plan_core.specs.Shapes.{one_source, one_group, passes_on};
ghost use Rattle.lazy_binding.specs.Parts.{shape_walked};
ghost use Rattle.lazy_steps.specs.Steps.{CanWalk, AdvancedOn};

use lazy_binding::{Growing, Position, Walk, put};
use lxp_core::{Sources, WalkFault};
use std::alloc::Global;
use std::rc::Rc;

/// A source operator: the number of its source.
#[derive(Clone, Copy)]
pub(crate) struct DocumentScan<'a> {
    pub(crate) walk: Walk<'a>,
    pub(crate) source: u32,
}

impl<'a> DocumentScan<'a> {
    /// The operator of this source.
    pub(crate) fn new(walk: Walk<'a>, source: u32) -> DocumentScan<'a>
        ensures { result ≡ record { walk = walk.entry; source = source } }
    {
        DocumentScan { walk, source }
    }

    /// A source has its document node, and nothing after it.
    #[inline(never)]
    pub(crate) fn next<S: Sources>(
        &self,
        alloc: Global,
        growing: &mut Growing,
        s: &mut S,
        at: &Position,
    ) -> Result<Option<Rc<Position>>, WalkFault>
        requires can { CanWalk (S.view s.old) growing.old self.now.walk at.now }
        requires is { (out : ℕ) × (shape_walked self.now.walk ≡ one_source self.now.source out) }
        ensures { AdvancedOn S.view S.came_from self.now.walk at.now s.old growing.old s.new growing.new result }
    {
        match at {
            Position::Start => {
                let top = growing.buffers[self.source as usize].top();
                Ok(Some(put(alloc, Position::Top(self.source, top))?))
            }
            _ => Ok(None),
        }
    }
}

/// A groupBy by no keys has one binding, which asks nothing.
#[inline(never)]
pub(crate) fn next_whole<S: Sources>(
    alloc: Global,
    walk: Walk<'_>,
    growing: &mut Growing,
    s: &mut S,
    at: &Position,
) -> Result<Option<Rc<Position>>, WalkFault>
    requires can { CanWalk (S.view s.old) growing.old walk at.now }
    requires is { (input : ℕ) × (piece : Piece) × (out : ℕ) × (shape_walked walk ≡ passes_on input (one_group piece out)) }
    ensures { AdvancedOn S.view S.came_from walk.entry at.now s.old growing.old s.new growing.new result }
{
    match at {
        Position::Start => Ok(Some(put(alloc, Position::Whole)?)),
        _ => Ok(None),
    }
}
