// Documents in memory that are given so many children at a time.
ghost use Rattle.std.specs.Prelude.{◌≡◌, ◌≤◌, true, false, IfOk, IsErrOf, MatchOption};
ghost use Rattle.lxp_core.specs.Open.{closed, weight_of, AllHoles, IsProgress, begins_with_hole};
ghost use Rattle.lxp_core.specs.Plain.{plain};
ghost use Rattle.lxp_memory.specs.Span.{hole_span};
ghost use Rattle.lxp_memory.specs.Choice.{in_chunks};
ghost use Rattle.lxp_memory.specs.DocumentHoles.{document_knows, document_forest, document_weight, document_list};

use crate::choice::Choice;
use crate::document::Document;
use crate::span::Span;
use lxp_core::{HoleId, OpenTree, SourceFault};
use std::alloc::Global;

impl Document {
    // The children that a hole stands for, where these are the children of a node from an index on.
    fn remaining(&self, hole: HoleId) -> Option<Span>
        ensures { MatchOption result (document_knows self.now hole ≡ false)
            (λ span. (span ≡ hole_span hole) × (document_knows self.now hole ≡ true)) }
    {
        let span = self.span(hole)?;
        if span.to == self.nodes[span.node].count {
            return Some(span);
        }
        None
    }

    /// The list of a hole, which stands for the children of a node from an index on: the next children, at most a chunk,
    /// and a hole after them exactly where more remain. Where it is to be whole, each child is given whole. Else a child
    /// that has children has one hole below it. `UnknownHole`: the document doesn't know the hole. It never answers
    /// `Failed`.
    pub fn fill(
        &self,
        alloc: Global,
        chunk: u32,
        whole: bool,
        hole: HoleId,
    ) -> Result<Vec<OpenTree>, SourceFault>
        requires { 1 ≤ chunk }
        ensures list { IfOk result (λ list. plain list.items ≡ document_list self.now chunk whole hole) }
        // What the answer promises.
        ensures closes { IfOk result (λ list.
            closed (document_forest self.now) (plain list.items) ≡ document_forest self.now hole) }
        ensures progress { IfOk result (λ list. IsProgress (plain list.items)) }
        ensures known { IfOk result (λ list. AllHoles (document_knows self.now) (plain list.items)) }
        ensures lighter { IfOk result (λ list.
            weight_of (document_weight self.now) (plain list.items) ≤ document_weight self.now hole) }
        ensures forward { IfOk result (λ list. begins_with_hole (plain list.items) ≡ false) }
        // For which causes a fill fails.
        ensures never_failed { ¬ IsErrOf result SourceFault.Failed }
        ensures unknown { IsErrOf result SourceFault.UnknownHole → document_knows self.now hole ≡ false }
        ensures only_unknown { document_knows self.now hole ≡ false → IsErrOf result SourceFault.UnknownHole }
    {
        let Some(span) = self.remaining(hole) else {
            return Err(SourceFault::UnknownHole);
        };
        let choice = Choice::in_chunks(chunk as usize, whole);
        Ok(self.cut(alloc, choice, span)?)
    }
}
