// Evidence as it is sought: operator by operator, from the sources up.
ghost use Rattle.std.specs.Prelude.{◌≡◌, ◌<◌, ◌++◌, ◌∷◌, [], ℕ, List, Some, true, IsTrue, IfOk, OnOk, MatchOption, length, slice_get};
ghost use Rattle.std.specs.List.{AllByRecursion, list_all};
ghost use Rattle.mix_tree.specs.Comparisons.{compares_nodes, passes};
ghost use Rattle.mix_tree.specs.Nodes.{Node, document_node, label_at};
ghost use Rattle.path_expr.specs.Form.{Form};
ghost use Rattle.lxp_core.specs.View.{View};
ghost use Rattle.plan_core.specs.PlanMade.{plan_value};
ghost use Rattle.plan_core.specs.Plans.{Operator};
ghost use Rattle.plan_core.specs.Shapes.{visits_below, shape_at};
ghost use Rattle.lazy_binding.specs.Cursors.{IsRead};
ghost use Rattle.lazy_steps.specs.Steps.{HasCause};
ghost use Rattle.lazy_plan.specs.Bench.{BenchState, state_of, plan_of, ops_of, documents, told, IsBenchOf, IsSpotAt, node_at};
ghost use Rattle.lazy_seek.specs.declared.evidence.Wanted.{Wanted};
ghost use Rattle.lazy_seek.specs.Known.{IsPlaceOf, KeepsOthers, IsKnownAs, IsTestKnown};
ghost use Rattle.lazy_seek.specs.Seeks.{Sought};
ghost use Rattle.lazy_seek.specs.Turns.{IsTurn, Knows, turn_reach, GoesOn};

use crate::known::{Known, KnownNodes};
use crate::places::{NodeAt, Way, seek_match};
use lazy_plan::{Bench, WalkFault};
use lxp_core::Sources;
use mix_tree::{Label, Operand, Place, Test, TestOp, Var};
use plan_core::Op;
use plan_forms::operator;
use std::alloc::{AllocError, Global};
use tree_buffer::{Spot, spots_are_one};

/// Evidence that is wanted: of an operator, at these places.
#[derive(Clone, Copy)]
pub struct Wanted<'a> {
    pub op: u32,
    pub places: &'a [Place],
}

/// An operator whose turn it is, and whether it is on the way of the evidence that is wanted.
#[derive(Clone, Copy)]
pub struct Turn<'a> {
    pub wanted: Wanted<'a>,
    pub op: u32,
    pub on_way: bool,
}

/// A getDescendants whose turn it is: from the node of one variable to that of another.
#[derive(Clone, Copy)]
struct Visit<'a> {
    turn: Turn<'a>,
    start: Var,
    out: Var,
}

/// What was found of evidence: nodes of variables, and the spots of those that getDescendants bind.
#[derive(Drop)]
pub struct Found {
    pub nodes: KnownNodes,
    pub spots: Vec<Spot>,
}

/// What a list of child indexes has behind a front of it; `None` where that is no front, or where nothing is behind it.
fn behind<'a>(steps: &'a [u64], front: &[u64]) -> Option<&'a [u64]>
    ensures { MatchOption result ((rest : List ℕ) → 0 < length rest → front.now ++ rest ≡ steps.now → ⊥)
        (λ rest. (0 < length rest.now) × (front.now ++ rest.now ≡ steps.now)) }
{
    let rest = steps.strip_prefix(front)?;
    if rest.is_empty() { None } else { Some(rest) }
}

impl<'a> Wanted<'a> {
    /// The place at an index.
    fn place(&self, index: usize) -> &'a [u64]
        requires { index < length self.now.places.now }
        ensures { slice_get self.now.places.now index ≡ Some result.now }
    {
        self.places[index].steps()
    }

    /// The place of a node that was found.
    fn place_of(&self, known: &Known) -> &'a [u64]
        requires { (p : List ℕ) × IsPlaceOf self.now.places.now known.now.place p }
        ensures { (p : List ℕ) → IsPlaceOf self.now.places.now known.now.place p → result.now ≡ p }
    {
        match known.place {
            None => &[],
            Some(index) => self.place(index),
        }
    }
}

impl Found {
    /// Nothing.
    pub fn new(alloc: Global) -> Found
        ensures { (st : BenchState) (ops : List Operator) (w : Wanted) → Knows st ops w result 0 }
    {
        Found {
            nodes: KnownNodes::new(alloc),
            spots: Vec::new(alloc),
        }
    }

    /// Adds the document node of a source for a variable.
    fn add_top(&mut self, bench: &Bench, source: u32, out: Var) -> Result<(), AllocError>
        requires bench { (view : View) × IsBenchOf view bench.now }
        requires read { IsRead (plan_value (plan_of bench.now)).ops source }
        ensures known { (view : View) (places : List (List ℕ)) → IsBenchOf view bench.now
            → OnOk result (IsKnownAs (state_of view bench.now) places self.new.nodes out (document_node source)) }
        ensures others { OnOk result (KeepsOthers out self.old.nodes self.new.nodes) }
        ensures spots { self.new.spots ≡ self.old.spots }
    {
        let spot = bench.top(source);
        let node = NodeAt { source, spot };
        self.nodes.put(out, Known { node, place: None })
    }

    /// Adds the node that a getDescendants binds, at the next place.
    fn add(&mut self, node: NodeAt, out: Var) -> Result<(), AllocError>
        ensures known { (st : BenchState) (places : List (List ℕ)) (n : Node) → IsSpotAt st node.source node.spot → node_at st node.source node.spot ≡ n
            → slice_get places (length self.old.spots.items) ≡ Some n.place → OnOk result (IsKnownAs st places self.new.nodes out n) }
        ensures others { OnOk result (KeepsOthers out self.old.nodes self.new.nodes) }
        ensures spots { OnOk result (self.new.spots.items ≡ self.old.spots.items ++ node.spot ∷ []) }
    {
        let place = Some(self.spots.len());
        self.nodes.put(out, Known { node, place })?;
        self.spots.push(node.spot)?;
        Ok(())
    }

    /// The label of a variable's node.
    fn label_of<'b>(&self, bench: &'b Bench, v: Var) -> Option<&'b Label>
        requires { (view : View) × (places : List (List ℕ)) × (n : Node) × IsBenchOf view bench.now
            × IsKnownAs (state_of view bench.now) places self.now.nodes v n }
        ensures { (view : View) (places : List (List ℕ)) (n : Node) → let st = state_of view bench.now in
            IsBenchOf view bench.now → IsTrue (told st) → IsKnownAs st places self.now.nodes v n
            → MatchOption result ⊥ (λ label. label.now ≡ label_at (documents st) n) }
    {
        let known = self.nodes.of(v)?;
        Some(bench.label(known.node.source, &known.node.spot))
    }

    /// Whether the two variables of a comparison of nodes have the same node: the same spot of one source.
    fn has_same_node(&self, test: &Test) -> bool
        requires { compares_nodes test.now.op ≡ true }
        ensures { (st : BenchState) (places : List (List ℕ)) (nodes : ℕ → Node) → IsTestKnown st places self.now.nodes nodes test.now
            → result ≡ passes (documents st) test.now nodes }
    {
        let Operand::Var(right) = &test.right else {
            return false;
        };
        spots_are_one();
        match (self.nodes.of(test.left), self.nodes.of(*right)) {
            (Some(a), Some(b)) => a.node.source == b.node.source && a.node.spot == b.node.spot,
            _ => false,
        }
    }

    /// Whether a comparison holds of the nodes that were found: of nodes by their spots, else of their labels.
    fn passes(&self, bench: &Bench, test: &Test) -> bool
        requires { (view : View) × (places : List (List ℕ)) × (nodes : ℕ → Node) × IsBenchOf view bench.now
            × IsTestKnown (state_of view bench.now) places self.now.nodes nodes test.now }
        ensures { (view : View) (places : List (List ℕ)) (nodes : ℕ → Node) → let st = state_of view bench.now in
            IsBenchOf view bench.now → IsTrue (told st) → IsTestKnown st places self.now.nodes nodes test.now
            → result ≡ passes (documents st) test.now nodes }
    {
        match test.op {
            TestOp::Same => self.has_same_node(test),
            _ => {
                let Some(left) = self.label_of(bench, test.left) else {
                    return false;
                };
                match &test.right {
                    Operand::Var(v) => match self.label_of(bench, *v) {
                        Some(right) => test.op.holds(left, right),
                        None => false,
                    },
                    Operand::Text(label) => test.op.holds(left, label),
                }
            }
        }
    }

    /// Whether all comparisons hold of the nodes that were found.
    fn passes_each(&self, bench: &Bench, tests: &[Test]) -> bool
        requires { (view : View) × (places : List (List ℕ)) × (nodes : ℕ → Node) × IsBenchOf view bench.now
            × AllByRecursion (IsTestKnown (state_of view bench.now) places self.now.nodes nodes) tests.now }
        ensures { (view : View) (places : List (List ℕ)) (nodes : ℕ → Node) → let st = state_of view bench.now in
            IsBenchOf view bench.now → IsTrue (told st) → AllByRecursion (IsTestKnown st places self.now.nodes nodes) tests.now
            → result ≡ list_all (λ t. passes (documents st) t nodes) tests.now }
    {
        for test in tests {
            if !self.passes(bench, test) {
                return false;
            }
        }
        true
    }

    /// Finds the node that a getDescendants binds, at the next place: whether the path leads there.
    fn find<S: Sources>(
        &mut self,
        alloc: Global,
        bench: &mut Bench,
        s: &mut S,
        visit: &Visit<'_>,
    ) -> Result<bool, WalkFault>
        requires bench { IsBenchOf (S.view s.old) bench.old }
        requires turn { IsTurn (plan_value (plan_of bench.old)).ops visit.now.turn }
        requires on_way { visit.now.turn.on_way ≡ true }
        requires visit { (input : ℕ) × (path : Form)
            × (shape_at (plan_value (plan_of bench.old)).ops visit.now.turn.op ≡ visits_below input visit.now.start path visit.now.out) }
        requires knows { Knows (state_of (S.view s.old) bench.old) (plan_value (plan_of bench.old)).ops visit.now.turn.wanted self.old visit.now.turn.op }
        ensures sought { Sought S.view S.came_from (turn_reach (plan_value (plan_of bench.old)).ops visit.now.turn) s.old bench.old s.new bench.new }
        ensures cause { HasCause (ops_of (state_of (S.view s.old) bench.old)) (S.view s.old) (S.view s.new) result }
        ensures answer { IfOk result (GoesOn (state_of (S.view s.old) bench.old) (state_of (S.view s.new) bench.new) visit.now.turn self.new) }
    {
        let wanted = &visit.turn.wanted;
        let Some(start) = self.nodes.of(visit.start) else {
            return Ok(false);
        };
        let place = wanted.place(self.spots.len());
        let Some(steps) = behind(place, wanted.place_of(&start)) else {
            return Ok(false);
        };
        let op = visit.turn.op;
        let Some(spot) = seek_match(alloc, bench, s, &start.node, &Way { op, steps })? else {
            return Ok(false);
        };
        let source = start.node.source;
        self.add(NodeAt { source, spot }, visit.out)?;
        Ok(true)
    }

    /// Goes on by one operator: whether it holds of the nodes that the places give, or isn't on the way.
    pub fn goes_on<S: Sources>(
        &mut self,
        alloc: Global,
        bench: &mut Bench,
        s: &mut S,
        turn: &Turn<'_>,
    ) -> Result<bool, WalkFault>
        requires bench { IsBenchOf (S.view s.old) bench.old }
        requires turn { IsTurn (plan_value (plan_of bench.old)).ops turn.now }
        requires knows { Knows (state_of (S.view s.old) bench.old) (plan_value (plan_of bench.old)).ops turn.now.wanted self.old turn.now.op }
        ensures sought { Sought S.view S.came_from (turn_reach (plan_value (plan_of bench.old)).ops turn.now) s.old bench.old s.new bench.new }
        ensures cause { HasCause (ops_of (state_of (S.view s.old) bench.old)) (S.view s.old) (S.view s.new) result }
        ensures answer { IfOk result (GoesOn (state_of (S.view s.old) bench.old) (state_of (S.view s.new) bench.new) turn.now self.new) }
    {
        if !turn.on_way {
            return Ok(true);
        }
        match operator(bench.plan(), turn.op) {
            Op::Source { source, out } => {
                self.add_top(bench, *source, *out)?;
                Ok(true)
            }
            Op::GetDescendants { start, out, .. } => {
                let visit = Visit {
                    turn: *turn,
                    start: *start,
                    out: *out,
                };
                self.find(alloc, bench, s, &visit)
            }
            Op::Select { test, .. } => Ok(self.passes(bench, test)),
            Op::Join { tests, .. } => Ok(self.passes_each(bench, tests)),
            _ => Ok(true),
        }
    }
}
