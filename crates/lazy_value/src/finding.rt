// The node that a text names, found on from the lowest node on its way that is known.
ghost use Rattle.std.specs.Prelude.{◌≡◌, MatchOption};
ghost use Rattle.lazy_walk.specs.Stages.{IsStage, size_of, whole_size};
ghost use Rattle.lazy_value.specs.Finding.{IsBefore};
ghost use Rattle.lazy_value.specs.Forms.{Decides};

use crate::ids::MarkedText;
use crate::mediator::Mediator;
use crate::text::part_text;
use lazy_walk::{Stage, WalkFault};
use lxp_core::Sources;
use node_text::NodeData;
use std::alloc::{AllocError, Global};

/// The part of a text before another: a step less, or, where there are no steps, a level less. `None`: before the root there is none.
fn part_before(stage: Stage) -> Option<Stage>
    ensures { MatchOption result (size_of stage ≡ 0) (λ before. IsBefore before stage) }
{
    let Stage { levels, steps } = stage;
    if steps > 0 {
        let steps = steps - 1;
        return Some(Stage { levels, steps });
    }
    if levels > 0 {
        let levels = levels - 1;
        return Some(Stage { levels, steps });
    }
    None
}

/// Whether a part of a text is the whole text.
fn is_whole(node: &NodeData, stage: Stage) -> bool
    requires { IsStage node.now stage }
    ensures { Decides (size_of stage ≡ whole_size node.now) result }
{
    stage.levels == node.levels.len() && stage.steps == node.inside.steps().len()
}

impl Mediator {
    ghost use Rattle.std.specs.Prelude.{◌<◌, IfOk, IsTrue};
    ghost use Rattle.lxp_core.specs.View.{View};
    ghost use Rattle.node_text.specs.Node.{IsFormed};
    ghost use Rattle.lazy_plan.specs.Bench.{ops_of, told};
    ghost use Rattle.lazy_steps.specs.Steps.{HasCause};
    ghost use Rattle.lazy_value.specs.Named.{state_of, IsMarkedText, IsMediatorOf, NamedWalked};
    ghost use Rattle.lazy_value.specs.Finding.{ComesOn, Finds, GivesKnown, IsKnown, IsLargestKnown};

    /// The largest known part of a text, beside the text itself. No fill is asked.
    fn known(&self, alloc: Global, node: &NodeData) -> Result<Stage, AllocError>
        requires mediator { (view : View) × IsMediatorOf view self.now }
        requires formed { IsFormed node.now }
        ensures { IfOk result (IsLargestKnown self.now node.now) }
    {
        let levels = node.levels.len();
        let steps = node.inside.steps().len();
        let mut stage = Stage { levels, steps };
        'parts: loop {
            let Some(before) = part_before(stage) else {
                return Ok(stage);
            };
            stage = before;
            let text = part_text(alloc, node, stage)?;
            if self.found.contains_key(&text) {
                return Ok(stage);
            }
        }
    }

    /// Walks from the node of a known part of a text to the next node on the way, and keeps that: the part that names it is known then. `None`: none is
    /// further on the way, or, over sources that tell their documents, the text names no node.
    fn further<S: Sources>(
        &mut self,
        alloc: Global,
        s: &mut S,
        marked: &MarkedText,
        stage: Stage,
    ) -> Result<Option<Stage>, WalkFault>
        requires mediator { IsMediatorOf (S.view s.old) self.old }
        requires marked { IsMarkedText (state_of (S.view s.old) self.old) marked.now }
        requires known { IsKnown self.old marked.now.mark.data stage }
        requires ahead { size_of stage < whole_size marked.now.mark.data }
        ensures walked { NamedWalked S.view S.came_from s.old self.old s.new self.new }
        ensures cause { HasCause (ops_of (state_of (S.view s.old) self.old)) (S.view s.old) (S.view s.new) result }
        ensures known { IfOk result (GivesKnown self.new marked.now.mark.data stage) }
        ensures leads { let old = state_of (S.view s.old) self.old in let new = state_of (S.view s.new) self.new in
            IsTrue (told old) → ComesOn old new marked.now.mark.data stage result }
    {
        let data = &marked.mark.data;
        let part = part_text(alloc, data, stage)?;
        let Some(node) = self.found.get(&part) else {
            return Ok(None);
        };
        let Some(passed) = self.walk.led_on(alloc, s, node, &marked.mark, stage)? else {
            return Ok(None);
        };
        let next = passed.stage;
        let text = part_text(alloc, data, next)?;
        self.found.insert(text, passed.node)?;
        Ok(Some(next))
    }

    /// Walks to the node that a text names, unless a walk has found it already: on from the lowest node on its way that is known. Each node on the way is
    /// kept as soon as it is found, for all texts on whose way it lies.
    pub(crate) fn find<S: Sources>(
        &mut self,
        alloc: Global,
        s: &mut S,
        marked: &MarkedText,
    ) -> Result<(), WalkFault>
        requires mediator { IsMediatorOf (S.view s.old) self.old }
        requires marked { IsMarkedText (state_of (S.view s.old) self.old) marked.now }
        ensures walked { NamedWalked S.view S.came_from s.old self.old s.new self.new }
        ensures cause { HasCause (ops_of (state_of (S.view s.old) self.old)) (S.view s.old) (S.view s.new) result }
        ensures found { Finds (state_of (S.view s.old) self.old) self.old (state_of (S.view s.new) self.new) self.new marked.now result }
    {
        if self.found.contains_key(&marked.text) {
            return Ok(());
        }
        let data = &marked.mark.data;
        let mut stage = self.known(alloc, data)?;
        'nodes: loop {
            if is_whole(data, stage) {
                return Ok(());
            }
            match self.further(alloc, s, marked, stage)? {
                None => return Ok(()),
                Some(next) => stage = next,
            }
        }
    }
}
