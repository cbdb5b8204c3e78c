// Evidence by its spots, and the nodes that it gives to the variables of operators on its way.
ghost use Rattle.std.specs.Prelude.{◌≡◌, ◌<◌, ℕ, suc, List, Some, true, IfOk, MatchOption, length, slice_get};
ghost use Rattle.mix_base.specs.Ascents.{Among};
ghost use Rattle.mix_tree.specs.Nodes.{Node};
ghost use Rattle.lxp_core.specs.View.{View};
ghost use Rattle.plan_core.specs.PlanMade.{plan_value};
ghost use Rattle.plan_core.specs.Valid.{kinds, a_node};
ghost use Rattle.plan_evidence.specs.Evidence.{is_on_way};
ghost use Rattle.lazy_plan.specs.Bench.{BenchState, state_of, plan_of, ops_of, IsBenchOf, IsSpotAt, node_at};
ghost use Rattle.lazy_seek.specs.Evidenced.{AreSpotsOf, AreSpotsGiven};
ghost use Rattle.lazy_follow.specs.Spotted.{IsSpotted, nodes_of, StandsFor};

use crate::way::evidence_vars;
use lazy_plan::Bench;
use lazy_seek::NodeAt;
use mix_tree::Var;
use plan_core::{Op, valid_plans_are_typed};
use plan_forms::{binds, operator};
use std::alloc::{AllocError, Global};
use tree_buffer::Spot;

/// Evidence of a binding: its operator, the variables that the getDescendants on the way bind, in the order of their numbers, and a spot of each one's node.
#[derive(Drop)]
pub struct Evidence {
    pub op: u32,
    pub vars: Vec<Var>,
    pub spots: Vec<Spot>,
}

/// The spot at an index; `None` where there is none.
fn spot_at(spots: &[Spot], i: usize) -> Option<Spot>
    ensures { result ≡ slice_get spots.now i }
{
    if i < spots.len() {
        Some(spots[i])
    } else {
        None
    }
}

impl Evidence {
    /// The evidence of an operator that has these spots.
    pub(crate) fn of(
        alloc: Global,
        bench: &Bench,
        op: u32,
        spots: Vec<Spot>,
    ) -> Result<Evidence, AllocError>
        requires op { suc op < length (plan_value (plan_of bench.now)).ops }
        requires bench { (view : View) × IsBenchOf view bench.now }
        ensures op { IfOk result (λ e. e.op ≡ op) }
        ensures spotted { IfOk result (λ e. (view : View) (places : List (List ℕ)) → let st = state_of view bench.now in
            AreSpotsGiven st op places spots.items → IsSpotted st places e) }
    {
        valid_plans_are_typed();
        let vars = evidence_vars(alloc, &bench.plan().ops, op)?;
        Ok(Evidence { op, vars, spots })
    }

    /// The spot of the node of a variable that a getDescendants binds.
    fn spot(&self, v: Var) -> Option<Spot>
        ensures { (st : BenchState) (nodes : ℕ → Node) → AreSpotsOf st nodes self.now.vars.items self.now.spots.items → Among v self.now.vars.items
            → MatchOption result ⊥ (λ x. IsSpotAt st (nodes v).source x × (node_at st (nodes v).source x ≡ nodes v)) }
    {
        for i in 0..self.vars.len() {
            if self.vars[i] == v {
                return spot_at(&self.spots, i);
            }
        }
        None
    }

    /// The node of a variable of an operator on the way.
    pub(crate) fn node_of(&self, bench: &Bench, op: u32, v: Var) -> Option<NodeAt>
        requires bench { (view : View) × IsBenchOf view bench.now }
        requires op { op < length (plan_value (plan_of bench.now)).ops }
        ensures { (view : View) (places : List (List ℕ)) → let st = state_of view bench.now in
            IsBenchOf view bench.now → IsSpotted st places self.now → is_on_way (ops_of st) self.now.op op ≡ true → kinds (ops_of st) op v ≡ Some a_node
            → MatchOption result ⊥ (StandsFor st (nodes_of st places self.now v)) }
    {
        valid_plans_are_typed();
        match operator(bench.plan(), op) {
            Op::Source { source, .. } => {
                let spot = bench.top(*source);
                Some(NodeAt {
                    source: *source,
                    spot,
                })
            }
            Op::GetDescendants {
                input,
                start,
                out,
                ..
            } => {
                if *out != v {
                    return self.node_of(bench, *input, v);
                }
                let Some(from) = self.node_of(bench, *input, *start) else {
                    return None;
                };
                let Some(spot) = self.spot(v) else {
                    return None;
                };
                Some(NodeAt {
                    source: from.source,
                    spot,
                })
            }
            Op::Join { left, right, .. } => {
                if binds(&bench.plan().ops, *left, v) {
                    self.node_of(bench, *left, v)
                } else {
                    self.node_of(bench, *right, v)
                }
            }
            Op::Select { input, .. } => self.node_of(bench, *input, v),
            Op::Project { input, .. } => self.node_of(bench, *input, v),
            Op::GroupBy { input, .. } => self.node_of(bench, *input, v),
            Op::OrderBy { input, .. } => self.node_of(bench, *input, v),
            Op::Concatenate { input, .. } => self.node_of(bench, *input, v),
            Op::CreateElement { input, .. } => self.node_of(bench, *input, v),
            Op::TupleDestroy { .. } => None,
        }
    }
}
