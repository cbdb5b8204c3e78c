// What the visits of tables can cost.
ghost use Rattle.std.specs.Prelude.{◌≡◌};
ghost use Rattle.path_auto.specs.Automaton.{machine_of};
ghost use Rattle.browse_visit.specs.Layouts.{one_value, value_layout};
ghost use Rattle.browse_profile.specs.Profiles.{one_skip, any_of};
ghost use Rattle.browse_visit.specs.Shapes.{row_of};
ghost use Rattle.browse_visit.specs.Visits.{own_profile, tree_profile, visit_profile};

use browse_profile::Profile;
use mix_tree::Label;
use path_auto::{Auto, StateSet};

/// A column of a table: its label, and whether each row has a value in it.
#[derive(Drop)]
pub struct TableColumn {
    pub label: Label,
    pub has_value: bool,
}

// The profile of a visit's event at a tree, from the states after its label.
fn own_profile(automaton: &Auto, states: StateSet) -> Profile
    ensures { result ≡ own_profile (machine_of automaton.now) states }
{
    if automaton.accepts(states) {
        Profile::one_binding()
    } else {
        Profile::one_skip()
    }
}

// The profile of the events at a tree and below it.
pub fn tree_profile(automaton: &Auto, states: StateSet, below: Profile) -> Profile
    ensures { result ≡ tree_profile (machine_of automaton.now) states below }
{
    if automaton.alive(states) {
        own_profile(automaton, states).in_turn(below)
    } else {
        own_profile(automaton, states)
    }
}

// The profile of the visit of one value, from the states above it.
pub fn one_value_profile(automaton: &Auto, labels: &[Label], states: StateSet) -> Profile
    ensures { result ≡ visit_profile (machine_of automaton.now) labels.now states one_value }
{
    any_leaf_profile(automaton, labels, states).in_turn(Profile::one_skip())
}

// The profile of the visit of a leaf of any of these labels.
fn any_leaf_profile(automaton: &Auto, labels: &[Label], states: StateSet) -> Profile
    ensures { result ≡ any_of (λ l. tree_profile (machine_of automaton.now) ((machine_of automaton.now).step states l) one_skip) labels.now }
{
    if labels.len() == 0 {
        return Profile::one_skip();
    }
    let mut at = labels.len() - 1;
    let mut found = tree_profile(
        automaton,
        automaton.step(states, &labels[at]),
        Profile::one_skip(),
    );
    while at > 0 {
        at -= 1;
        found = tree_profile(
            automaton,
            automaton.step(states, &labels[at]),
            Profile::one_skip(),
        )
        .one_of(found);
    }
    found
}

// The profile of the visit of what stands below a column, from the states above it.
pub fn value_profile(
    automaton: &Auto,
    labels: &[Label],
    states: StateSet,
    has_value: bool,
) -> Profile
    ensures { result ≡ visit_profile (machine_of automaton.now) labels.now states (value_layout has_value) }
{
    let one = one_value_profile(automaton, labels, states);
    if has_value {
        one
    } else {
        Profile::one_skip().one_of(one)
    }
}

/// The profile of the visit of a row's columns, from the states above them.
pub fn row_profile(
    automaton: &Auto,
    labels: &[Label],
    states: StateSet,
    columns: &[TableColumn],
) -> Profile
    ensures { result ≡ visit_profile (machine_of automaton.now) labels.now states (row_of columns.now) }
{
    let mut at = columns.len();
    let mut found = Profile::one_skip();
    while at > 0 {
        at -= 1;
        let column = &columns[at];
        let below = automaton.step(states, &column.label);
        found = tree_profile(
            automaton,
            below,
            value_profile(automaton, labels, below, column.has_value),
        )
        .in_turn(found);
    }
    found
}
