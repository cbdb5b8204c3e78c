// The next binding of a getDescendants.
ghost use Rattle.std.specs.Prelude.{◌≡◌, ◌<◌, length};
ghost use Rattle.plan_core.specs.Shapes.{visits_below};
ghost use Rattle.path_auto.specs.Automaton.{machine_of, table_of};
ghost use Rattle.lazy_steps.specs.Steps.{CanStep, CanWalk, AdvancedOn, FindsVisit};
ghost use Rattle.lazy_binding.specs.Parts.{operators, shape_walked, IsFixed};

use crate::steps::advance;
use crate::visits::Visit;
use lazy_binding::{Growing, Position, Walk, put, share};
use lxp_core::{Sources, WalkFault};
use mix_tree::Var;
use path_expr::Path;
use std::alloc::Global;
use std::rc::Rc;

/// A getDescendants: its input, the variable from whose nodes it visits along a path, and the one that it binds.
#[derive(Clone, Copy)]
pub(crate) struct PathScan<'a> {
    pub(crate) walk: Walk<'a>,
    pub(crate) input: usize,
    pub(crate) start: Var,
    pub(crate) path: &'a Path,
    pub(crate) out: Var,
}

impl<'a> PathScan<'a> {
    /// A getDescendants of this input, from one variable along a path to another.
    pub(crate) fn new(
        walk: Walk<'a>,
        input: u32,
        start: Var,
        path: &'a Path,
        out: Var,
    ) -> PathScan<'a>
        ensures { result ≡ record { walk = walk.entry; input = input; start = start; path = path.entry; out = out } }
    {
        PathScan {
            walk,
            input: input as usize,
            start,
            path,
            out,
        }
    }

    /// The visits along the path in this source.
    fn visit(&self, source: u32) -> Visit<'a>
        requires fixed { IsFixed self.now.walk.fixed.now }
        requires op { self.now.walk.op < length (operators self.now.walk.fixed.now) }
        requires is { shape_walked self.now.walk ≡ visits_below self.now.input self.now.start self.now.path.now self.now.out }
        ensures is { result ≡ record { fixed = self.now.walk.fixed; auto = result.auto; source = source } }
        ensures auto { machine_of result.auto.now ≡ machine_of (table_of self.now.path.now) }
    {
        Visit {
            fixed: self.walk.fixed,
            auto: match &self.walk.fixed.autos[self.walk.op] {
                Some(auto) => auto,
                None => unreachable!(),
            },
            source,
        }
    }

    /// The next match of the visit at hand, or the first below a later binding of the input.
    #[cycle(walk)]
    #[inline(never)]
    pub(crate) fn next<S: Sources>(
        &self,
        alloc: Global,
        growing: &mut Growing,
        s: &mut S,
        at: &Position,
    ) -> Result<Option<Rc<Position>>, WalkFault>
        requires can { CanWalk (S.view s.old) growing.old self.now.walk at.now }
        requires is { shape_walked self.now.walk ≡ visits_below self.now.input self.now.start self.now.path.now self.now.out }
        ensures { AdvancedOn S.view S.came_from self.now.walk at.now s.old growing.old s.new growing.new result }
    {
        match at {
            Position::Found(source, below, found) => {
                match self
                    .visit(*source)
                    .next_at(alloc, growing, s, found, below)?
                {
                    None => self.next_start(alloc, growing, s, below),
                    Some(next) => Ok(Some(next)),
                }
            }
            _ => {
                let start = put(alloc, Position::Start)?;
                self.next_start(alloc, growing, s, &start)
            }
        }
    }

    /// From binding to binding of the input, up to the first match of a visit.
    #[cycle(walk)]
    #[inline(never)]
    fn next_start<S: Sources>(
        &self,
        alloc: Global,
        growing: &mut Growing,
        s: &mut S,
        below: &Rc<Position>,
    ) -> Result<Option<Rc<Position>>, WalkFault>
        requires can { CanStep (S.view s.old) growing.old self.now.walk.fixed.now self.now.input below.now.value }
        requires op { self.now.walk.op < length (operators self.now.walk.fixed.now) }
        requires is { shape_walked self.now.walk ≡ visits_below self.now.input self.now.start self.now.path.now self.now.out }
        ensures { let k = self.now in
            FindsVisit S.view S.came_from k.walk k.input k.start k.path.now k.out below.now.value s.old growing.old s.new growing.new result }
    {
        let input = Walk {
            fixed: self.walk.fixed,
            op: self.input,
        };
        let mut at = share(below)?;
        'starts: loop {
            let Some(next) = advance(alloc, input, growing, s, &at)? else {
                return Ok(None);
            };
            let (source, node) = input.node_of(&next, self.start);
            if let Some(found) = self
                .visit(source)
                .first_at(alloc, growing, s, &node, &next)?
            {
                return Ok(Some(found));
            }
            at = next;
        }
    }
}
