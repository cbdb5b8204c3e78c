// Whether evidence agrees with a binding, or with other evidence, by keys.
ghost use Rattle.std.specs.Prelude.{◌≡◌, ◌<◌, ℕ, List, Some, IsTrue, length};
ghost use Rattle.mix_tree.specs.Keys.{key_var};
ghost use Rattle.mix_tree.specs.Nodes.{Node};
ghost use Rattle.lxp_core.specs.View.{View};
ghost use Rattle.plan_core.specs.PlanMade.{plan_value};
ghost use Rattle.plan_core.specs.TolledRows.{key_value, key_values, row_node, same_value, same_values};
ghost use Rattle.plan_core.specs.Valid.{kinds, a_node, AreNodes};
ghost use Rattle.plan_evidence.specs.Held.{held, node_values};
ghost use Rattle.lazy_plan.specs.Bench.{state_of, plan_of, ops_of, documents, told, IsBenchOf, IsCursor, IsSpotAt, binding_at};
ghost use Rattle.lazy_follow.specs.Spotted.{IsSpotted, nodes_of, StandsFor, InSome, InEach};

use crate::evidence::Evidence;
use lazy_plan::{Bench, Cursor};
use lazy_seek::NodeAt;
use mix_tree::{Key, Var};
use plan_core::Op;
use plan_forms::{operator, var_of};
use tree_buffer::spots_are_one;

/// Whether two nodes are the same by a kind of key: the same spot of one source, or of the same label.
fn same_by(bench: &Bench, key: &Key, a: &NodeAt, b: &NodeAt) -> bool
    requires { InSome bench.now (λ st. IsSpotAt st a.now.source a.now.spot × IsSpotAt st b.now.source b.now.spot) }
    ensures { (m n : Node) → InEach bench.now (λ st. StandsFor st m a.now → StandsFor st n b.now → IsTrue (told st)
        → result ≡ same_value (key_value (documents st) (λ v. m) key.now) (key_value (documents st) (λ v. n) key.now)) }
{
    match key {
        Key::Node(_) => {
            spots_are_one();
            a.source == b.source && a.spot == b.spot
        }
        Key::LabelOf(_) => bench.label(a.source, &a.spot) == bench.label(b.source, &b.spot),
    }
}

/// The node of a variable in a cursor's binding.
fn node_in(bench: &Bench, op: u32, c: &Cursor, v: Var) -> NodeAt
    requires op { op < length (plan_value (plan_of bench.now)).ops }
    requires cursor { InSome bench.now (λ st. IsCursor st op c.now) }
    requires node { kinds (plan_value (plan_of bench.now)).ops op v ≡ Some a_node }
    ensures { InEach bench.now (λ st. IsCursor st op c.now → StandsFor st (row_node (binding_at st op c.now) v) result) }
{
    let (source, spot) = bench.node(op, c, v);
    NodeAt { source, spot }
}

/// Whether a cursor's binding agrees with evidence by a key.
fn agrees_by(bench: &Bench, evidence: &Evidence, c: &Cursor, key: &Key) -> bool
    requires cursor { (places : List (List ℕ)) × InSome bench.now (λ st. IsSpotted st places evidence.now × IsCursor st evidence.now.op c.now) }
    requires node { kinds (plan_value (plan_of bench.now)).ops evidence.now.op (key_var key.now) ≡ Some a_node }
    ensures { (places : List (List ℕ)) → InEach bench.now (λ st. IsSpotted st places evidence.now → IsCursor st evidence.now.op c.now → IsTrue (told st)
        → result ≡ same_value (key_value (documents st) (nodes_of st places evidence.now) key.now)
        (key_value (documents st) (row_node (binding_at st evidence.now.op c.now)) key.now)) }
{
    let v = var_of(*key);
    let Some(node) = evidence.node_of(bench, evidence.op, v) else {
        return false;
    };
    let there = node_in(bench, evidence.op, c, v);
    same_by(bench, key, &node, &there)
}

/// Whether a cursor's binding agrees with evidence by all of some keys.
fn agrees_by_all(bench: &Bench, evidence: &Evidence, c: &Cursor, keys: &[Key]) -> bool
    requires cursor { (places : List (List ℕ)) × InSome bench.now (λ st. IsSpotted st places evidence.now × IsCursor st evidence.now.op c.now) }
    requires nodes { AreNodes keys.now (kinds (plan_value (plan_of bench.now)).ops evidence.now.op) }
    ensures { (places : List (List ℕ)) → InEach bench.now (λ st. IsSpotted st places evidence.now → IsCursor st evidence.now.op c.now → IsTrue (told st)
        → result ≡ same_values (node_values (documents st) keys.now (nodes_of st places evidence.now))
        (key_values (documents st) keys.now (binding_at st evidence.now.op c.now))) }
{
    for key in keys {
        if !agrees_by(bench, evidence, c, key) {
            return false;
        }
    }
    true
}

/// Whether a cursor's binding agrees with evidence by the keys that an operator on the way holds.
fn agrees_below(bench: &Bench, evidence: &Evidence, c: &Cursor, op: u32) -> bool
    requires op { op < length (plan_value (plan_of bench.now)).ops }
    requires cursor { (places : List (List ℕ)) × InSome bench.now (λ st. IsSpotted st places evidence.now × IsCursor st evidence.now.op c.now) }
    requires nodes { AreNodes (held (plan_value (plan_of bench.now)).ops op) (kinds (plan_value (plan_of bench.now)).ops evidence.now.op) }
    ensures { (places : List (List ℕ)) → InEach bench.now (λ st. IsSpotted st places evidence.now → IsCursor st evidence.now.op c.now → IsTrue (told st)
        → result ≡ same_values (node_values (documents st) (held (ops_of st) op) (nodes_of st places evidence.now))
        (key_values (documents st) (held (ops_of st) op) (binding_at st evidence.now.op c.now))) }
{
    match operator(bench.plan(), op) {
        Op::Source { out, .. } => agrees_by(bench, evidence, c, &Key::Node(*out)),
        Op::GetDescendants { input, out, .. } => {
            agrees_below(bench, evidence, c, *input)
                && agrees_by(bench, evidence, c, &Key::Node(*out))
        }
        Op::Join { left, right, .. } => {
            agrees_below(bench, evidence, c, *left) && agrees_below(bench, evidence, c, *right)
        }
        Op::Project { keys, .. } => agrees_by_all(bench, evidence, c, keys),
        Op::GroupBy { keys, .. } => agrees_by_all(bench, evidence, c, keys),
        Op::Select { input, .. } => agrees_below(bench, evidence, c, *input),
        Op::OrderBy { input, .. } => agrees_below(bench, evidence, c, *input),
        Op::Concatenate { input, .. } => agrees_below(bench, evidence, c, *input),
        Op::CreateElement { input, .. } => agrees_below(bench, evidence, c, *input),
        Op::TupleDestroy { .. } => true,
    }
}

/// Whether evidence is that of a cursor's binding: whether they agree by the keys that the operator of both holds. No fill is asked.
pub fn agrees(bench: &Bench, evidence: &Evidence, c: &Cursor) -> bool
    requires { (places : List (List ℕ)) × InSome bench.now (λ st. IsSpotted st places evidence.now × IsCursor st evidence.now.op c.now) }
    ensures { (places : List (List ℕ)) → InEach bench.now (λ st. IsSpotted st places evidence.now → IsCursor st evidence.now.op c.now → IsTrue (told st)
        → result ≡ same_values (node_values (documents st) (held (ops_of st) evidence.now.op) (nodes_of st places evidence.now))
        (key_values (documents st) (held (ops_of st) evidence.now.op) (binding_at st evidence.now.op c.now))) }
{
    agrees_below(bench, evidence, c, evidence.op)
}

/// Whether evidence agrees with other evidence by a key.
fn is_same_by(bench: &Bench, here: &Evidence, there: &Evidence, key: &Key) -> bool
    requires spotted { (places others : List (List ℕ)) × InSome bench.now (λ st. IsSpotted st places here.now × IsSpotted st others there.now) }
    requires here { kinds (plan_value (plan_of bench.now)).ops here.now.op (key_var key.now) ≡ Some a_node }
    requires there { kinds (plan_value (plan_of bench.now)).ops there.now.op (key_var key.now) ≡ Some a_node }
    ensures { (places others : List (List ℕ)) → InEach bench.now (λ st. IsSpotted st places here.now → IsSpotted st others there.now → IsTrue (told st)
        → result ≡ same_value (key_value (documents st) (nodes_of st places here.now) key.now) (key_value (documents st) (nodes_of st others there.now) key.now)) }
{
    let v = var_of(*key);
    let Some(a) = here.node_of(bench, here.op, v) else {
        return false;
    };
    let Some(b) = there.node_of(bench, there.op, v) else {
        return false;
    };
    same_by(bench, key, &a, &b)
}

/// Whether evidence agrees with other evidence by all of some keys.
pub(crate) fn is_same_group(bench: &Bench, here: &Evidence, there: &Evidence, keys: &[Key]) -> bool
    requires spotted { (places others : List (List ℕ)) × InSome bench.now (λ st. IsSpotted st places here.now × IsSpotted st others there.now) }
    requires here { AreNodes keys.now (kinds (plan_value (plan_of bench.now)).ops here.now.op) }
    requires there { AreNodes keys.now (kinds (plan_value (plan_of bench.now)).ops there.now.op) }
    ensures { (places others : List (List ℕ)) → InEach bench.now (λ st. IsSpotted st places here.now → IsSpotted st others there.now → IsTrue (told st)
        → result ≡ same_values (node_values (documents st) keys.now (nodes_of st places here.now)) (node_values (documents st) keys.now (nodes_of st others there.now))) }
{
    for key in keys {
        if !is_same_by(bench, here, there, key) {
            return false;
        }
    }
    true
}
