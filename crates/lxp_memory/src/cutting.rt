// The lists with which a document in memory answers.
ghost use Rattle.std.specs.Prelude.{◌≡◌, ◌≤◌, ◌+◌, ◌<◌, length, true, IfOk, OnOk};
ghost use Rattle.lxp_core.specs.Open.{Open, node, without_holes};
ghost use Rattle.lxp_core.specs.Plain.{plain, put_all};
ghost use Rattle.lxp_memory.specs.Nodes.{label_of, run};
ghost use Rattle.lxp_memory.specs.Span.{has_span};
ghost use Rattle.lxp_memory.specs.Cut.{hole_if, kids_of, cut};

use crate::choice::Choice;
use crate::document::Document;
use crate::span::Span;
use lxp_core::OpenTree;
use std::alloc::{AllocError, Global};

// Puts a hole after a list, where one is wanted.
fn push_hole_if(list: &mut Vec<OpenTree>, wanted: bool, span: Span) -> Result<(), AllocError>
    ensures { OnOk result ((rest : Open) →
        put_all list.new.items rest ≡ put_all list.old.items (hole_if wanted span rest)) }
{
    if wanted {
        list.push(OpenTree::Hole(span.hole()))?;
    }
    Ok(())
}

impl Document {
    // Puts a node after a list, above a list of its own.
    fn push_node(
        &self,
        alloc: Global,
        list: &mut Vec<OpenTree>,
        i: usize,
        kids: Vec<OpenTree>,
    ) -> Result<(), AllocError>
        requires { i < length self.now.nodes.items }
        ensures { OnOk result ((rest : Open) → put_all list.new.items rest
            ≡ put_all list.old.items (node (label_of self.now.nodes.items i) (plain kids.items) rest)) }
    {
        let label = self.nodes[i].label.copy(alloc)?;
        list.push(OpenTree::Node { label, kids })?;
        Ok(())
    }

    // The trees of so many nodes that stand side by side, without holes.
    fn run(&self, alloc: Global, first: usize, count: usize) -> Result<Vec<OpenTree>, AllocError>
        requires { first + count ≤ length self.now.nodes.items }
        ensures { IfOk result (λ list. plain list.items ≡ without_holes (run self.now.nodes.items first count)) }
    {
        let mut list = Vec::new(alloc);
        for i in first..first + count {
            let kids = self.run(alloc, self.first(i), self.nodes[i].count)?;
            self.push_node(alloc, &mut list, i, kids)?;
        }
        Ok(list)
    }

    // The list below a node.
    fn kids(&self, alloc: Global, choice: Choice, i: usize) -> Result<Vec<OpenTree>, AllocError>
        requires { i < length self.now.nodes.items }
        ensures { IfOk result (λ list. plain list.items ≡ kids_of self.now.nodes.items choice i) }
    {
        let count = self.nodes[i].count;
        if choice.whole {
            return self.run(alloc, self.first(i), count);
        }
        let mut list = Vec::new(alloc);
        let span = Span {
            node: i,
            from: 0,
            to: count,
        };
        push_hole_if(&mut list, choice.wants_hole(count), span)?;
        Ok(list)
    }

    /// The list of some children of a node, cut by a choice.
    pub(crate) fn cut(
        &self,
        alloc: Global,
        choice: Choice,
        span: Span,
    ) -> Result<Vec<OpenTree>, AllocError>
        requires { has_span self.now.nodes.items span ≡ true }
        ensures { IfOk result (λ list. plain list.items ≡ cut self.now.nodes.items choice span) }
    {
        let mut list = Vec::new(alloc);
        if span.from == span.to {
            return Ok(list);
        }
        let from = span.from + choice.skipped.min(span.to - span.from - 1);
        let to = from + choice.most.min(span.to - from);
        push_hole_if(&mut list, choice.leads, Span { to: from, ..span })?;
        let first = self.first(span.node);
        for i in first + from..first + to {
            let kids = self.kids(alloc, choice, i)?;
            self.push_node(alloc, &mut list, i, kids)?;
        }
        push_hole_if(
            &mut list,
            choice.wants_hole(span.to - to),
            Span { from: to, ..span },
        )?;
        Ok(list)
    }
}
