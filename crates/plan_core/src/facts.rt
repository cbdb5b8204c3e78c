// What fronts tell of the keys of operators.
ghost use Rattle.std.specs.Prelude.{◌≡◌, ◌++◌, ◌∷◌, [], List, true, false, IfOk, OnOk, length, map};
ghost use Rattle.std.specs.List.{list_all, list_any};
ghost use Rattle.mix_tree.specs.Keys.{key_eq};
ghost use Rattle.mix_tree.specs.declared.var.Key.TheVariants.{Node as node_key};
ghost use Rattle.plan_core.specs.Fronts.{op_stops, op_apart};
ghost use Rattle.plan_core.specs.FrontsKept.{AreKept, HasInputs};
ghost use Rattle.plan_core.specs.Plans.{Operator};
ghost use Rattle.plan_core.specs.PlanMade.{op_of};

use crate::Op;
use crate::front::{are_contiguous, is_node_key};
use crate::fronts::Fronts;
use mix_tree::{Key, Var};
use std::alloc::{AllocError, Global};

// Whether the groups of an operator end at the first other key.
fn ends_groups(op: &Op, fronts: &Fronts) -> bool
    ensures { (ops : List Operator) → HasInputs ops fronts.now (op_of op.now) → result ≡ op_stops ops (op_of op.now) }
{
    match op {
        Op::GroupBy { input, keys, .. } => are_contiguous(keys, fronts.vars(*input)),
        _ => false,
    }
}

// Whether each of these variables' nodes is a key.
fn are_node_keys(keys: &[Key], vars: &[Var]) -> bool
    ensures { result ≡ list_all (λ v. list_any (key_eq (node_key v)) keys.now) vars.now }
{
    vars.iter().all(|var| is_node_key(keys, *var))
}

// Whether no two bindings below a project agree by its keys.
fn is_apart(op: &Op, fronts: &Fronts) -> bool
    ensures { (ops : List Operator) → HasInputs ops fronts.now (op_of op.now) → result ≡ op_apart ops (op_of op.now) }
{
    match op {
        Op::Project { input, keys } => {
            fronts.is_whole(*input) && are_node_keys(keys, fronts.vars(*input))
        }
        _ => false,
    }
}

/// What the fronts of a plan tell of the keys of its operators, each by its number (docs/MEANING.md, "Fronts").
#[derive(Drop)]
pub struct KeyFacts {
    /// Whether it is a `groupBy` whose groups end at the first other key of its input, since bindings that agree by its keys stand side by side.
    pub stops: Vec<bool>,
    /// Whether it is a `project` that passes on each binding of its input, since no two of them agree by its keys.
    pub apart: Vec<bool>,
}

impl KeyFacts {
    // What is known of no operators.
    fn none(alloc: Global) -> KeyFacts
        ensures stops { result.stops.items ≡ [] }
        ensures apart { result.apart.items ≡ [] }
    {
        KeyFacts {
            stops: Vec::new(alloc),
            apart: Vec::new(alloc),
        }
    }

    // Adds what the fronts of its inputs tell of one operator more. `Err`: memory.
    fn push(&mut self, op: &Op, fronts: &Fronts) -> Result<(), AllocError>
        ensures stops { (ops : List Operator) → HasInputs ops fronts.now (op_of op.now)
            → OnOk result (self.new.stops.items ≡ self.old.stops.items ++ op_stops ops (op_of op.now) ∷ []) }
        ensures apart { (ops : List Operator) → HasInputs ops fronts.now (op_of op.now)
            → OnOk result (self.new.apart.items ≡ self.old.apart.items ++ op_apart ops (op_of op.now) ∷ []) }
    {
        self.stops.push(ends_groups(op, fronts))?;
        self.apart.push(is_apart(op, fronts))?;
        Ok(())
    }
}

// The facts where fronts move on: an operator is asked about before it is given those of its inputs. `Err`: memory.
fn facts_in_passing(alloc: Global, ops: &[Op], fronts: Fronts) -> Result<KeyFacts, AllocError>
    requires kept { AreKept (map op_of ops.now) 0 fronts }
    requires moving { fronts.moving ≡ true }
    ensures stops { IfOk result (λ facts. facts.stops.items ≡ map (op_stops (map op_of ops.now)) (map op_of ops.now)) }
    ensures apart { IfOk result (λ facts. facts.apart.items ≡ map (op_apart (map op_of ops.now)) (map op_of ops.now)) }
{
    let mut fronts = fronts;
    let mut facts = KeyFacts::none(alloc);
    'ops: for op in ops {
        facts.push(op, &fronts)?;
        fronts.push(alloc, op)?;
    }
    Ok(facts)
}

// The fronts of all operators, after those of none. `Err`: memory.
fn all_fronts(alloc: Global, ops: &[Op], fronts: Fronts) -> Result<Fronts, AllocError>
    requires { AreKept (map op_of ops.now) 0 fronts }
    ensures kept { IfOk result (λ all. AreKept (map op_of ops.now) (length ops.now) all) }
    ensures moving { IfOk result (λ all. all.moving ≡ fronts.moving) }
{
    let mut fronts = fronts;
    'ops: for op in ops {
        fronts.push(alloc, op)?;
    }
    Ok(fronts)
}

// The facts where fronts stay, of which there are those of all operators. `Err`: memory.
fn facts_after(alloc: Global, ops: &[Op], fronts: &Fronts) -> Result<KeyFacts, AllocError>
    requires kept { AreKept (map op_of ops.now) (length ops.now) fronts.now }
    requires staying { fronts.now.moving ≡ false }
    ensures stops { IfOk result (λ facts. facts.stops.items ≡ map (op_stops (map op_of ops.now)) (map op_of ops.now)) }
    ensures apart { IfOk result (λ facts. facts.apart.items ≡ map (op_apart (map op_of ops.now)) (map op_of ops.now)) }
{
    let mut facts = KeyFacts::none(alloc);
    'ops: for op in ops {
        facts.push(op, fronts)?;
    }
    Ok(facts)
}

/// What the fronts of a plan tell of the keys of its operators. `Err`: memory.
pub fn key_facts(alloc: Global, ops: &[Op]) -> Result<KeyFacts, AllocError>
    ensures stops { IfOk result (λ facts. facts.stops.items ≡ map (op_stops (map op_of ops.now)) (map op_of ops.now)) }
    ensures apart { IfOk result (λ facts. facts.apart.items ≡ map (op_apart (map op_of ops.now)) (map op_of ops.now)) }
{
    let fronts = Fronts::new(alloc, ops)?;
    if fronts.are_moving() {
        return facts_in_passing(alloc, ops, fronts);
    }
    let fronts = all_fronts(alloc, ops, fronts)?;
    facts_after(alloc, ops, &fronts)
}
