// What a bench is made of: the plan with the automata of its paths, and what grows while it is walked; and an operator of such a plan.
ghost use Rattle.std.specs.Prelude.{◌≡◌, ◌<◌, length};
ghost use Rattle.plan_core.specs.ByNumber.{op_at};
ghost use Rattle.plan_core.specs.Fronts.{op_apart, op_stops};
ghost use Rattle.plan_core.specs.PlanMade.{op_of};
ghost use Rattle.lazy_binding.specs.Parts.{operators, IsFixed};

use crate::gathered::Gathered;
use crate::key::SeenKeys;
use crate::position::{Position, Reached};
use join_memo::Memo;
use mix_tree::Var;
use path_auto::Auto;
use plan_core::{Op, Plan};
use plan_forms::Link;
use std::rc::Rc;
use tree_buffer::Buffer;

/// A plan, and for each operator the automaton of its path, where it has one, whether its groups end at the first other key, whether it is a
/// project that passes on each binding of its input, and by which links the members of its right side are looked up, where it is a join with
/// such ones; and which variables are those of its right side alone.
#[derive(Drop)]
pub struct Fixed {
    pub plan: Plan,
    pub autos: Vec<Option<Auto>>,
    pub stops: Vec<bool>,
    pub apart: Vec<bool>,
    pub links: Vec<Vec<Link>>,
    pub rights: Vec<Vec<Var>>,
}

/// How far groups were walked: for each operator its group at hand, where its groups end at the first other key, and the members of all its
/// groups, where they end with its input.
#[derive(Drop)]
pub struct Walked {
    pub reached: Vec<Option<Reached>>,
    pub gathered: Vec<Gathered>,
}

/// What grows while a plan is walked: for each source the nodes that were handed out, and for each operator the keys that it has seen, the
/// bindings of its right side as far as they were asked for, where it is a join, and how far its groups were walked.
#[derive(Drop)]
pub struct Growing {
    pub buffers: Vec<Buffer>,
    pub seen: Vec<SeenKeys>,
    pub memos: Vec<Memo<Rc<Position>>>,
    pub walked: Walked,
}

/// An operator of a plan: the plan, and the operator's number.
#[derive(Clone, Copy)]
pub struct Walk<'a> {
    pub fixed: &'a Fixed,
    pub op: usize,
}

impl Fixed {
    /// The operator of a number.
    pub fn operator(&self, n: usize) -> &Op
        requires { n < length (operators self.now) }
        ensures { op_of result.now ≡ op_at (operators self.now) n }
    {
        &self.plan.ops[n]
    }

    /// Whether the groups of an operator end at the first other key of its input.
    pub fn stops_at(&self, n: usize) -> bool
        requires fixed { IsFixed self.now }
        requires op { n < length (operators self.now) }
        ensures { result ≡ op_stops (operators self.now) (op_at (operators self.now) n) }
    {
        self.stops[n]
    }

    /// Whether an operator is a `project` that passes on each binding of its input, since no two of them agree by its keys.
    pub fn is_apart(&self, n: usize) -> bool
        requires fixed { IsFixed self.now }
        requires op { n < length (operators self.now) }
        ensures { result ≡ op_apart (operators self.now) (op_at (operators self.now) n) }
    {
        self.apart[n]
    }
}
