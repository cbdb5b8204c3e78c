// The automaton of a path, over sets of its positions.
ghost use Rattle.std.specs.Prelude.{◌≡◌, ◌≤◌, length, IfOk};
ghost use Rattle.path_expr.specs.Form.{positions_in};
ghost use Rattle.path_auto.specs.Positions.{passes};
ghost use Rattle.path_auto.specs.Sets.{row_at, step_from};
ghost use Rattle.path_auto.specs.Automaton.{machine_of, table_of, IsAutomatonOf};

use crate::StateSet;
use crate::sets::{entry_path, least, live_set, push_after, push_labels, single, without_least};
use mix_tree::Label;
use path_expr::{Path, count_positions};
use std::alloc::{AllocError, Global};
use std::marker::Model;

/// The automaton of a path. Its states are a set of the path's positions as the bits of a number; the bit after them
/// is that of the path's end. No step takes memory.
#[derive(Drop)]
pub struct Auto {
    /// The label of each position; none where any may stand.
    labels: Vec<Option<Label>>,
    /// The set of those after each position.
    after: Vec<u128>,
    /// The positions from after which some list of labels leads to the end.
    live: u128,
    /// The positions at which the first label may stand.
    first: u128,
    /// The path's end.
    end: u128,
}

impl Model for Auto {
    ghost use Rattle.std.specs.Prelude.{◌≡◌, ◌≤◌, ◌^◌, length};
    ghost use Rattle.path_auto.specs.Automaton.{Table};

    ghost Value = { Table };

    ghost view = { λ a. record { labels = a.labels.items; after = a.after.items; live = a.live; first = a.first } };

    ghost invariant = { λ a. (length a.labels.items ≤ 120) × (length a.after.items ≡ length a.labels.items) × (a.end ≡ 2 ^ length a.labels.items) };
}

impl Auto {
    /// The automaton of a path.
    #[tactic(auto, using(crate::proofs::Automata::labels_length, crate::proofs::Automata::few_positions))]
    pub fn new(alloc: Global, p: &Path) -> Result<Auto, AllocError>
        requires { positions_in p.now ≤ 120 }
        ensures automaton { IfOk result (λ a. IsAutomatonOf (machine_of a) p.now) }
        ensures table { IfOk result (λ a. a ≡ table_of p.now) }
    {
        let end = single(count_positions(p));
        let mut labels = Vec::new(alloc);
        push_labels(alloc, p, &mut labels)?;
        let mut after = Vec::new(alloc);
        push_after(p, 0, end, &mut after)?;
        let live = live_set(alloc, p)?;
        let first = entry_path(p, 0, end);
        Ok(Auto {
            labels,
            after,
            live,
            first,
            end,
        })
    }

    /// The states before any label.
    #[tactic(auto, unfolding(crate::specs::Automaton::machine_of))]
    pub fn start(&self) -> StateSet
        ensures { result ≡ (machine_of self.now).start }
    {
        StateSet::new(self.first)
    }

    /// The states after one more label.
    #[tactic(auto, unfolding(crate::specs::Automaton::machine_of))]
    pub fn step(&self, states: StateSet, l: &Label) -> StateSet
        ensures { result ≡ (machine_of self.now).step states l.now }
    {
        StateSet::new(step_table(&self.labels, &self.after, states.bits(), l))
    }

    /// Whether the path describes the labels so far.
    #[tactic(auto, unfolding(crate::specs::Automaton::machine_of))]
    pub fn accepts(&self, states: StateSet) -> bool
        ensures { result ≡ (machine_of self.now).accepts states }
    {
        states.bits() & self.end != 0
    }

    /// Whether the path describes some longer list of labels that begins with those so far.
    #[tactic(auto, unfolding(crate::specs::Automaton::machine_of))]
    pub fn alive(&self, states: StateSet) -> bool
        ensures { result ≡ (machine_of self.now).goes_on states }
    {
        states.bits() & self.live != 0
    }
}

// Whether a label may stand at a position.
fn passes_label(test: &Option<Label>, label: &Label) -> bool
    ensures { result ≡ passes test.now label.now }
{
    match test {
        None => true,
        Some(wanted) => wanted == label,
    }
}

// The set that a position gives to a step.
fn row_of(labels: &[Option<Label>], after: &[u128], at: usize, label: &Label) -> u128
    requires { length after.now ≡ length labels.now }
    ensures { result ≡ row_at labels.now after.now at label.now }
{
    match labels.get(at) {
        Some(test) if passes_label(test, label) => after[at],
        _ => 0,
    }
}

// The set after a label.
fn step_table(labels: &[Option<Label>], after: &[u128], states: u128, label: &Label) -> u128
    requires { length after.now ≡ length labels.now }
    ensures { result ≡ step_from labels.now after.now 0 states label.now }
{
    let mut found = 0;
    let mut rest = states;
    while rest != 0 {
        found |= row_of(labels, after, least(rest), label);
        rest = without_least(rest);
    }
    found
}
