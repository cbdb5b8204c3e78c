// The sorts at which a path accepts, and the profile of its visit.
ghost use Rattle.std.specs.Prelude.{◌≡◌};
ghost use Rattle.std.specs.List.{list_any};
ghost use Rattle.path_auto.specs.Automaton.{machine_of};
ghost use Rattle.browse_visit.specs.declared.shape.Sort.TheVariants.{Root, Document};
ghost use Rattle.browse_visit.specs.Shapes.{row_of, both, row_label, name_of, columns_of, sort_layout, has_sort};
ghost use Rattle.browse_visit.specs.Found.{if_taken, tree_found, value_found, value_sort, row_found, root_found, document_found, sort_found, sorts_found, or_profile, with_profile, sort_profile, sorts_profile};
ghost use Rattle.browse_visit.specs.Visits.{visit_profile};

use crate::shape::{Shape, Sort, Sorts};
use crate::visit::{TableColumn, row_profile, tree_profile, value_profile};
use browse_profile::Profile;
use mix_tree::Label;
use path_auto::{Auto, StateSet};

// A set, where it is taken.
fn if_taken(can: bool, sorts: Sorts) -> Sorts
    ensures { result ≡ if_taken can sorts }
{
    if can { sorts } else { Sorts::none() }
}

// The sorts found at a tree: its own sort where it is accepted, and those below it where the visit goes on.
fn tree_found(automaton: &Auto, states: StateSet, own: Sort, below: Sorts) -> Sorts
    ensures { result ≡ tree_found (machine_of automaton.now) states own below }
{
    let here = if_taken(automaton.accepts(states), Sorts::only(own));
    here.both(if_taken(automaton.alive(states), below))
}

// Some label leads to a state that accepts.
fn any_accepts(automaton: &Auto, labels: &[Label], states: StateSet) -> bool
    ensures { result ≡ list_any (λ l. (machine_of automaton.now).accepts ((machine_of automaton.now).step states l)) labels.now }
{
    for l in labels {
        if automaton.accepts(automaton.step(states, l)) {
            return true;
        }
    }
    false
}

// The sorts found at a value, from the states above it.
fn value_found(automaton: &Auto, labels: &[Label], states: StateSet) -> Sorts
    ensures { result ≡ value_found (machine_of automaton.now) labels.now states }
{
    if_taken(
        any_accepts(automaton, labels, states),
        Sorts::only(Sort::Leaf),
    )
}

// What stands below a column.
fn value_sort(has_value: bool) -> Sort
    ensures { result ≡ value_sort has_value }
{
    if has_value {
        Sort::Value
    } else {
        Sort::MaybeValue
    }
}

// The sorts found at columns, from the states above them.
fn row_found(automaton: &Auto, labels: &[Label], states: StateSet, columns: &[TableColumn]) -> Sorts
    ensures { result ≡ row_found (machine_of automaton.now) labels.now states columns.now }
{
    let mut at = columns.len();
    let mut found = Sorts::none();
    while at > 0 {
        at -= 1;
        let column = &columns[at];
        let below = automaton.step(states, &column.label);
        found = tree_found(
            automaton,
            below,
            value_sort(column.has_value),
            value_found(automaton, labels, below),
        )
        .both(found);
    }
    found
}

// The sorts found at the columns of a shape, from the states above them.
fn columns_found(automaton: &Auto, labels: &[Label], states: StateSet, shape: &Shape) -> Sorts
    ensures { result ≡ row_found (machine_of automaton.now) labels.now states (columns_of shape.now) }
{
    match shape {
        Shape::Any => Sorts::none(),
        Shape::Rows { columns, .. } => row_found(automaton, labels, states, columns),
    }
}

// The states after the name of a shape.
fn name_step(automaton: &Auto, row: &Label, states: StateSet, shape: &Shape) -> StateSet
    requires { row.now ≡ row_label }
    ensures { result ≡ (machine_of automaton.now).step states (name_of shape.now) }
{
    match shape {
        Shape::Any => automaton.step(states, row),
        Shape::Rows { name, .. } => automaton.step(states, name),
    }
}

// The sorts found at rows, from the states above them.
fn root_found(
    automaton: &Auto,
    labels: &[Label],
    row: &Label,
    states: StateSet,
    shape: &Shape,
) -> Sorts
    requires { row.now ≡ row_label }
    ensures { result ≡ root_found (machine_of automaton.now) labels.now states shape.now }
{
    let below = automaton.step(states, row);
    tree_found(
        automaton,
        below,
        Sort::Row,
        columns_found(automaton, labels, below, shape),
    )
}

// The sorts found at the root, from the states above it.
fn document_found(
    automaton: &Auto,
    labels: &[Label],
    row: &Label,
    states: StateSet,
    shape: &Shape,
) -> Sorts
    requires { row.now ≡ row_label }
    ensures { result ≡ document_found (machine_of automaton.now) labels.now states shape.now }
{
    let below = name_step(automaton, row, states, shape);
    tree_found(
        automaton,
        below,
        Sort::Root,
        root_found(automaton, labels, row, below, shape),
    )
}

// The sorts found below a node of a sort.
fn sort_found(automaton: &Auto, labels: &[Label], row: &Label, shape: &Shape, sort: Sort) -> Sorts
    requires { row.now ≡ row_label }
    ensures { result ≡ sort_found (machine_of automaton.now) labels.now shape.now sort }
{
    let start = automaton.start();
    match sort {
        Sort::Document => document_found(automaton, labels, row, start, shape),
        Sort::Root => root_found(automaton, labels, row, start, shape),
        Sort::Row => columns_found(automaton, labels, start, shape),
        Sort::Value | Sort::MaybeValue => value_found(automaton, labels, start),
        Sort::Leaf => Sorts::none(),
        Sort::Anything => Sorts::only(Sort::Anything),
    }
}

// The set so far, and another where it is taken.
fn with_found(before: Sorts, can: bool, below: Sorts) -> Sorts
    ensures { result ≡ both before (if_taken can below) }
{
    before.both(if_taken(can, below))
}

/// The sorts below the bindings of the visit below nodes of a set.
pub fn sorts_found(
    automaton: &Auto,
    labels: &[Label],
    row: &Label,
    shape: &Shape,
    sorts: Sorts,
) -> Sorts
    requires { row.now ≡ row_label }
    ensures { result ≡ sorts_found (machine_of automaton.now) labels.now shape.now sorts }
{
    let mut found = Sorts::none();
    found = with_found(
        found,
        sorts.has(Sort::Document),
        sort_found(automaton, labels, row, shape, Sort::Document),
    );
    found = with_found(
        found,
        sorts.has(Sort::Root),
        sort_found(automaton, labels, row, shape, Sort::Root),
    );
    found = with_found(
        found,
        sorts.has(Sort::Row),
        sort_found(automaton, labels, row, shape, Sort::Row),
    );
    found = with_found(
        found,
        sorts.has(Sort::Value),
        sort_found(automaton, labels, row, shape, Sort::Value),
    );
    found = with_found(
        found,
        sorts.has(Sort::MaybeValue),
        sort_found(automaton, labels, row, shape, Sort::MaybeValue),
    );
    found = with_found(
        found,
        sorts.has(Sort::Leaf),
        sort_found(automaton, labels, row, shape, Sort::Leaf),
    );
    with_found(
        found,
        sorts.has(Sort::Anything),
        sort_found(automaton, labels, row, shape, Sort::Anything),
    )
}

// The profile of the visit of a shape's columns, from the states above them.
fn columns_profile(automaton: &Auto, labels: &[Label], states: StateSet, shape: &Shape) -> Profile
    ensures { result ≡ visit_profile (machine_of automaton.now) labels.now states (row_of (columns_of shape.now)) }
{
    match shape {
        Shape::Any => Profile::one_skip(),
        Shape::Rows { columns, .. } => row_profile(automaton, labels, states, columns),
    }
}

// The profile of the visit of a shape's rows, from the states above them.
fn root_profile(
    automaton: &Auto,
    labels: &[Label],
    row: &Label,
    states: StateSet,
    shape: &Shape,
) -> Profile
    requires { row.now ≡ row_label }
    ensures { result ≡ visit_profile (machine_of automaton.now) labels.now states (sort_layout shape.now Root) }
{
    let below = automaton.step(states, row);
    let each = tree_profile(
        automaton,
        below,
        columns_profile(automaton, labels, below, shape),
    );
    each.repeated().in_turn(Profile::one_skip())
}

// The profile of the visit of a shape's root, from the states above it.
fn document_profile(
    automaton: &Auto,
    labels: &[Label],
    row: &Label,
    states: StateSet,
    shape: &Shape,
) -> Profile
    requires { row.now ≡ row_label }
    ensures { result ≡ visit_profile (machine_of automaton.now) labels.now states (sort_layout shape.now Document) }
{
    let below = name_step(automaton, row, states, shape);
    let root = tree_profile(
        automaton,
        below,
        root_profile(automaton, labels, row, below, shape),
    );
    root.in_turn(Profile::one_skip())
}

// The profile of the visit below a node of a sort.
fn sort_profile(
    automaton: &Auto,
    labels: &[Label],
    row: &Label,
    shape: &Shape,
    sort: Sort,
) -> Profile
    requires { row.now ≡ row_label }
    ensures { result ≡ sort_profile (machine_of automaton.now) labels.now shape.now sort }
{
    let start = automaton.start();
    match sort {
        Sort::Document => document_profile(automaton, labels, row, start, shape),
        Sort::Root => root_profile(automaton, labels, row, start, shape),
        Sort::Row => columns_profile(automaton, labels, start, shape),
        Sort::Value => value_profile(automaton, labels, start, true),
        Sort::MaybeValue => value_profile(automaton, labels, start, false),
        Sort::Leaf => Profile::one_skip(),
        Sort::Anything => Profile::unbounded(),
    }
}

// The profile of one list or another: of one of those so far, or of one more.
fn or_profile(found: Option<Profile>, p: Profile) -> Profile
    ensures { result ≡ or_profile found p }
{
    match found {
        None => p,
        Some(a) => a.one_of(p),
    }
}

// The profile so far, or one more where it can be.
fn with_profile(found: Option<Profile>, can: bool, p: Profile) -> Option<Profile>
    ensures { result ≡ with_profile found can p }
{
    if can {
        Some(or_profile(found, p))
    } else {
        found
    }
}

/// The profile of the visit below nodes of a set.
pub fn sorts_profile(
    automaton: &Auto,
    labels: &[Label],
    row: &Label,
    shape: &Shape,
    sorts: Sorts,
) -> Profile
    requires { row.now ≡ row_label }
    ensures { result ≡ sorts_profile (machine_of automaton.now) labels.now shape.now sorts }
{
    let mut found = None;
    found = with_profile(
        found,
        sorts.has(Sort::Document),
        sort_profile(automaton, labels, row, shape, Sort::Document),
    );
    found = with_profile(
        found,
        sorts.has(Sort::Root),
        sort_profile(automaton, labels, row, shape, Sort::Root),
    );
    found = with_profile(
        found,
        sorts.has(Sort::Row),
        sort_profile(automaton, labels, row, shape, Sort::Row),
    );
    found = with_profile(
        found,
        sorts.has(Sort::Value),
        sort_profile(automaton, labels, row, shape, Sort::Value),
    );
    found = with_profile(
        found,
        sorts.has(Sort::MaybeValue),
        sort_profile(automaton, labels, row, shape, Sort::MaybeValue),
    );
    found = with_profile(
        found,
        sorts.has(Sort::Leaf),
        sort_profile(automaton, labels, row, shape, Sort::Leaf),
    );
    found = with_profile(
        found,
        sorts.has(Sort::Anything),
        sort_profile(automaton, labels, row, shape, Sort::Anything),
    );
    match found {
        None => Profile::one_skip(),
        Some(p) => p,
    }
}
