// The spots of the variables in a position's binding.
ghost use Rattle.std.specs.Prelude.{◌≡◌, ◌<◌, ◌==◌, IfSome, is_some, true, length};
ghost use Rattle.std.specs.List.{list_any};
ghost use Rattle.lazy_binding.specs.Reading.{held, held_in};
ghost use Rattle.lazy_binding.specs.Spots.{spot_in};
ghost use Rattle.lazy_binding.specs.Parts.{operators, IsFixed};

use crate::parts::Fixed;
use crate::position::Position;
use mix_tree::Var;
use plan_core::Op;
use plan_forms::names_var;
use tree_buffer::Spot;

/// Whether a variable is among these.
fn is_among(vars: &[Var], v: Var) -> bool
    ensures { result ≡ list_any (λ u. u == v) vars.now }
{
    for u in vars {
        if *u == v {
            return true;
        }
    }
    false
}

impl Fixed {
    /// The part of a position of an operator that stands at a variable's node. Nothing is copied on the way to it, and the left side of a join isn't
    /// searched for a variable of the right side.
    fn holder<'a>(&self, n: usize, at: &'a Position, v: Var) -> Option<&'a Position>
        requires fixed { IsFixed self.now }
        requires op { n < length (operators self.now) }
        ensures held { held_in result ≡ spot_in (operators self.now) n at.now v }
        ensures some { IfSome result (λ p. is_some (held p.now) ≡ true) }
    {
        match self.operator(n) {
            Op::Source { out, .. } => match at {
                Position::Top(_, _) if *out == v => Some(at),
                _ => None,
            },
            Op::GetDescendants { input, out, .. } => match at {
                Position::Found(_, _, _) if *out == v => Some(at),
                Position::Found(_, below, _) => self.holder(*input as usize, below, v),
                _ => None,
            },
            Op::Select { input, .. }
            | Op::Concatenate { input, .. }
            | Op::CreateElement { input, .. } => match at {
                Position::Pass(below) => self.holder(*input as usize, below, v),
                _ => None,
            },
            Op::Join { left, right, .. } => match at {
                Position::Pair(_, r, _) if is_among(&self.rights[n], v) => {
                    self.holder(*right as usize, r, v)
                }
                Position::Pair(l, r, _) => match self.holder(*left as usize, l, v) {
                    Some(part) => Some(part),
                    None => self.holder(*right as usize, r, v),
                },
                _ => None,
            },
            Op::Project { input, keys } | Op::GroupBy { input, keys, .. } => match at {
                Position::First(below, _) | Position::Pass(below) if names_var(keys, v) => {
                    self.holder(*input as usize, below, v)
                }
                _ => None,
            },
            Op::OrderBy { input, .. } => match at {
                Position::Sorted(list, index) => self.holder(*input as usize, list.get(*index)?, v),
                _ => None,
            },
            Op::TupleDestroy { .. } => None,
        }
    }

    /// The spot of a variable in the binding of a position of an operator, with its source.
    pub(crate) fn spot_of(&self, n: usize, at: &Position, v: Var) -> Option<(u32, Spot)>
        requires fixed { IsFixed self.now }
        requires op { n < length (operators self.now) }
        ensures { result ≡ spot_in (operators self.now) n at.now v }
    {
        match self.holder(n, at, v)? {
            Position::Top(source, spot) => Some((*source, *spot)),
            Position::Found(source, _, at) => Some((*source, *at.spot())),
            _ => None,
        }
    }
}
