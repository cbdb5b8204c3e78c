// What a position is made of: those of the inputs, and the sources of its variables.
ghost use Rattle.std.specs.Prelude.{◌≡◌, ◌<◌, IfOk, length};
ghost use Rattle.lazy_binding.specs.Parts.{operators, IsFixed};
ghost use Rattle.lazy_binding.specs.Unders.{part_at, source_var};

use crate::parts::{Fixed, Walk};
use crate::position::{Position, input_part};
use mix_tree::Var;
use plan_core::Op;
use plan_forms::names_var;
use std::alloc::{AllocError, Global};
use std::rc::Rc;

impl Walk<'_> {
    /// The position of an input in a position; that of a join's left input first.
    pub fn under(
        &self,
        alloc: Global,
        at: &Position,
        input: u32,
    ) -> Result<Rc<Position>, AllocError>
        requires op { self.now.op < length (operators self.now.fixed.now) }
        ensures { IfOk result (λ d. d.value ≡ part_at (operators self.now.fixed.now) self.now.op at.now input) }
    {
        match self.fixed.operator(self.op) {
            Op::Join { left, .. } => match at {
                Position::Pair(l, r, _) => { if *left == input { l.clone() } else { r.clone() } }
                _ => input_part(alloc, at),
            },
            _ => input_part(alloc, at),
        }
    }
}

impl Fixed {
    /// The source of the nodes that a variable of an operator holds.
    pub fn variable_source(&self, n: usize, v: Var) -> Option<u32>
        requires fixed { IsFixed self.now }
        requires op { n < length (operators self.now) }
        ensures { result ≡ source_var (operators self.now) n v }
    {
        match self.operator(n) {
            Op::Source { source, out } => { if *out == v { Some(*source) } else { None } }
            Op::GetDescendants {
                input,
                start,
                out,
                ..
            } => {
                let of = if *out == v { *start } else { v };
                self.variable_source(*input as usize, of)
            }
            Op::Join { left, right, .. } => match self.variable_source(*left as usize, v) {
                Some(source) => Some(source),
                None => self.variable_source(*right as usize, v),
            },
            Op::Project { input, keys } | Op::GroupBy { input, keys, .. } => {
                if names_var(keys, v) {
                    self.variable_source(*input as usize, v)
                } else {
                    None
                }
            }
            Op::Select { input, .. }
            | Op::OrderBy { input, .. }
            | Op::Concatenate { input, .. }
            | Op::CreateElement { input, .. } => self.variable_source(*input as usize, v),
            Op::TupleDestroy { .. } => None,
        }
    }
}
