// Places: of the nodes of sources, and of the nodes at a cursor's parts, which are the evidence of its binding.

use crate::bench::Bench;
use crate::cursor::Cursor;
use lazy_binding::Walk;
use lazy_evidence::evidence;
use mix_tree::Place;
use std::alloc::{AllocError, Global};
use tree_buffer::Spot;

impl Bench {
    ghost use Rattle.std.specs.Prelude.{◌≡◌, ◌<◌, IsTrue, IfOk, length};
    ghost use Rattle.lxp_core.specs.View.{View};
    ghost use Rattle.plan_core.specs.PlanMade.{plan_value};
    ghost use Rattle.plan_evidence.specs.Evidence.{evidence_vars, places_of, IsEvidence};
    ghost use Rattle.plan_evidence.specs.Held.{AreOf};
    ghost use Rattle.lazy_binding.specs.World.{place_in};
    ghost use Rattle.lazy_evidence.specs.Below.{nodes_at};
    ghost use Rattle.lazy_evidence.specs.Laws.{IsAmong};
    ghost use Rattle.lazy_plan.specs.Bench.{state_of, plan_of, ops_of, documents, told, events_of, binding_at, IsBenchOf, IsCursor, IsSpotAt};

    /// The place of a node of a source, counted from the document node. No fill is asked.
    pub fn place(&self, alloc: Global, source: u32, p: &Spot) -> Result<Place, AllocError>
        requires spot { (view : View) × IsBenchOf view self.now × IsSpotAt (state_of view self.now) source p.now }
        ensures { (view : View) → let st = state_of view self.now in
            IsSpotAt st source p.now → IfOk result (λ place. place ≡ place_in st.world source p.now) }
    {
        self.growing.buffers[source as usize].place(alloc, p)
    }

    /// Evidence of a cursor's binding: the places of the nodes that the getDescendants on the way to it have found, in the order of
    /// their numbers. No fill is asked.
    pub fn evidence(&self, alloc: Global, op: u32, c: &Cursor) -> Result<Vec<Place>, AllocError>
        requires op { op < length (plan_value (plan_of self.now)).ops }
        requires cursor { (view : View) × IsBenchOf view self.now × IsCursor (state_of view self.now) op c.now }
        ensures parts { (view : View) → let st = state_of view self.now in IsBenchOf view self.now → IsCursor st op c.now
            → IfOk result (λ places. places.items ≡ places_of (evidence_vars (ops_of st) op) (nodes_at st.world (ops_of st) op c.now)) }
        ensures right { (view : View) → let st = state_of view self.now in IsBenchOf view self.now → IsCursor st op c.now
            → IsTrue (told st) → IsAmong (events_of st op) (binding_at st op c.now) → let nodes = nodes_at st.world (ops_of st) op c.now in
            IfOk result (λ places. IsEvidence (documents st) (ops_of st) op places.items nodes × AreOf (documents st) (ops_of st) op nodes (binding_at st op c.now)) }
    {
        let walk = Walk {
            fixed: &self.fixed,
            op: op as usize,
        };
        evidence(alloc, walk, &self.growing, &c.position)
    }
}
