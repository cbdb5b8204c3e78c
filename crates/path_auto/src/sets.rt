// The sets of a path's positions that its automaton is made of.
ghost use Rattle.std.specs.Prelude.{◌≡◌, ℕ, ◌<◌, ◌≤◌, length, if◌then◌else◌, ◌+◌, ◌^◌, ◌++◌, ◌==◌, true, OnOk, IfOk, IsUtf8};
ghost use Rattle.std.specs.Int.{bit_at};
ghost use Rattle.path_expr.specs.Form.{paths_of, positions_in, positions_of};
ghost use Rattle.path_expr.specs.Description.{in_turn, one_of};
ghost use Rattle.path_expr.specs.Labels.{HeadUtf8, AreUtf8};
ghost use Rattle.path_auto.specs.Sets.{IsLeast, IsWithout, entry_by, entry, some_by, some, rows_by, rows, lives_by, lives, lives_in, tests_by, tests_of, set_of};

use mix_tree::Label;
use path_expr::{Node, Path, count_positions};
use std::alloc::{AllocError, Global};

/// The set of one position.
pub fn single(at: usize) -> u128
    requires { at < 128 }
    ensures { result ≡ 2 ^ at }
{
    1u128 << at
}

/// The least position of a set.
pub fn least(states: u128) -> usize
    requires { 0 < states }
    ensures { IsLeast states result }
{
    states.trailing_zeros() as usize
}

/// The set without its least position.
pub fn without_least(states: u128) -> u128
    requires { 0 < states }
    ensures less { result < states }
    ensures others { (at : ℕ) → IsLeast states at → IsWithout states at result }
{
    states & (states - 1)
}

/// The first positions of a path whose positions are numbered from `base`, where those after it are `next`.
#[cycle(entry)]
#[tactic(auto, using(crate::proofs::Unions::entry_only))]
pub fn entry_path(path: &Path, base: usize, next: u128) -> u128
    requires { base + positions_in path.now < 128 }
    ensures { result ≡ entry_by path.now.head (entry path.now.members) base next }
{
    match path.node() {
        Node::Name(_) | Node::Any => single(base),
        Node::Seq(paths) => entry_turn(paths, base, next),
        Node::Alt(paths) => entry_one(paths, base, next),
        Node::Star(path) | Node::Opt(path) => next | entry_path(path, base, next),
        Node::Plus(path) => entry_path(path, base, next),
    }
}

// The first positions of a sequence.
#[cycle(entry)]
fn entry_turn(paths: &[Path], base: usize, next: u128) -> u128
    requires { base + positions_of (paths_of paths.now) < 128 }
    ensures { result ≡ entry (paths_of paths.now) in_turn base next }
{
    match paths.split_first() {
        None => next,
        Some((first, rest)) => {
            let after = entry_turn(rest, base + count_positions(first), next);
            entry_path(first, base, after)
        }
    }
}

// The first positions of a choice.
#[cycle(entry)]
fn entry_one(paths: &[Path], base: usize, next: u128) -> u128
    requires { base + positions_of (paths_of paths.now) < 128 }
    ensures { result ≡ entry (paths_of paths.now) one_of base next }
{
    match paths.split_first() {
        None => 0,
        Some((first, rest)) => {
            let others = entry_one(rest, base + count_positions(first), next);
            entry_path(first, base, next) | others
        }
    }
}

// Whether a path describes any list.
#[cycle(some)]
#[tactic(auto, using(crate::proofs::Unions::some_only))]
fn some_path(path: &Path) -> bool
    ensures { result ≡ some_by path.now.head (some path.now.members) }
{
    match path.node() {
        Node::Name(_) | Node::Any | Node::Star(_) | Node::Opt(_) => true,
        Node::Seq(paths) => some_turn(paths),
        Node::Alt(paths) => some_one(paths),
        Node::Plus(path) => some_path(path),
    }
}

// Whether a sequence describes any list at all.
#[cycle(some)]
fn some_turn(paths: &[Path]) -> bool
    ensures { result ≡ some (paths_of paths.now) in_turn }
{
    match paths.split_first() {
        None => true,
        Some((first, rest)) => some_path(first) && some_turn(rest),
    }
}

// Whether a choice describes any list at all.
#[cycle(some)]
fn some_one(paths: &[Path]) -> bool
    ensures { result ≡ some (paths_of paths.now) one_of }
{
    match paths.split_first() {
        None => false,
        Some((first, rest)) => some_path(first) || some_one(rest),
    }
}

/// Puts the set of those after each position of a path after `table`.
#[cycle(rows)]
#[tactic(auto, using(crate::proofs::Unions::entry_only, crate::proofs::Unions::rows_only))]
pub fn push_after(
    path: &Path,
    base: usize,
    next: u128,
    table: &mut Vec<u128>,
) -> Result<(), AllocError>
    requires { base + positions_in path.now < 128 }
    ensures { OnOk result (table.new.items ≡ table.old.items ++ rows_by path.now.head (rows path.now.members) (entry path.now.members) base next) }
{
    match path.node() {
        Node::Name(_) | Node::Any => {
            table.push(next)?;
            Ok(())
        }
        Node::Seq(paths) => push_after_turn(paths, base, next, table),
        Node::Alt(paths) => push_after_one(paths, base, next, table),
        Node::Star(path) | Node::Plus(path) => {
            let around = next | entry_path(path, base, next);
            push_after(path, base, around, table)
        }
        Node::Opt(path) => push_after(path, base, next, table),
    }
}

// Puts the set of those after each position of a sequence after `table`.
#[cycle(rows)]
fn push_after_turn(
    paths: &[Path],
    base: usize,
    next: u128,
    table: &mut Vec<u128>,
) -> Result<(), AllocError>
    requires { base + positions_of (paths_of paths.now) < 128 }
    ensures { OnOk result (table.new.items ≡ table.old.items ++ rows (paths_of paths.now) in_turn base next) }
{
    let Some((first, rest)) = paths.split_first() else {
        return Ok(());
    };
    let after = base + count_positions(first);
    push_after(first, base, entry_turn(rest, after, next), table)?;
    push_after_turn(rest, after, next, table)
}

// Puts the set of those after each position of a choice after `table`.
#[cycle(rows)]
fn push_after_one(
    paths: &[Path],
    base: usize,
    next: u128,
    table: &mut Vec<u128>,
) -> Result<(), AllocError>
    requires { base + positions_of (paths_of paths.now) < 128 }
    ensures { OnOk result (table.new.items ≡ table.old.items ++ rows (paths_of paths.now) one_of base next) }
{
    let Some((first, rest)) = paths.split_first() else {
        return Ok(());
    };
    let after = base + count_positions(first);
    push_after(first, base, next, table)?;
    push_after_one(rest, after, next, table)
}

// Puts whether some list leads to the end from after each position after `table`, where `more` says so of the end of
// the path.
#[cycle(lives)]
#[tactic(auto, using(crate::proofs::Unions::lives_only))]
fn push_lives(path: &Path, more: bool, table: &mut Vec<bool>) -> Result<(), AllocError>
    ensures { OnOk result (table.new.items ≡ table.old.items ++ lives_by path.now.head (lives path.now.members) more) }
{
    match path.node() {
        Node::Name(_) | Node::Any => {
            table.push(more)?;
            Ok(())
        }
        Node::Seq(paths) => push_lives_turn(paths, more, table),
        Node::Alt(paths) => push_lives_one(paths, more, table),
        Node::Star(path) | Node::Plus(path) | Node::Opt(path) => push_lives(path, more, table),
    }
}

// Puts whether some list leads to the end from after each position of a sequence after `table`.
#[cycle(lives)]
fn push_lives_turn(paths: &[Path], more: bool, table: &mut Vec<bool>) -> Result<(), AllocError>
    ensures { OnOk result (table.new.items ≡ table.old.items ++ lives (paths_of paths.now) in_turn more) }
{
    let Some((first, rest)) = paths.split_first() else {
        return Ok(());
    };
    let goes_on = some_turn(rest) && more;
    push_lives(first, goes_on, table)?;
    push_lives_turn(rest, more, table)
}

// Puts whether some list leads to the end from after each position of a choice after `table`.
#[cycle(lives)]
fn push_lives_one(paths: &[Path], more: bool, table: &mut Vec<bool>) -> Result<(), AllocError>
    ensures { OnOk result (table.new.items ≡ table.old.items ++ lives (paths_of paths.now) one_of more) }
{
    let Some((first, rest)) = paths.split_first() else {
        return Ok(());
    };
    push_lives(first, more, table)?;
    push_lives_one(rest, more, table)
}

// The set of a position, or the empty one.
fn single_if(live: bool, at: usize) -> u128
    requires { at < 128 }
    ensures { result ≡ (if live then 2 ^ at else 0) }
{
    if live { single(at) } else { 0 }
}

// The set of the positions of which the list says so.
fn set_where(lives: &[bool]) -> u128
    requires { length lives.now ≤ 120 }
    ensures { result ≡ set_of lives.now 0 }
{
    let mut set = 0;
    for at in 0..lives.len() {
        set |= single_if(lives[at], at);
    }
    set
}

/// The set of the positions from after which some list leads to the end.
pub fn live_set(alloc: Global, path: &Path) -> Result<u128, AllocError>
    requires { length (lives_in path.now) ≤ 120 }
    ensures { IfOk result (λ set. set ≡ set_of (lives_in path.now) 0) }
{
    let mut lives = Vec::new(alloc);
    push_lives(path, true, &mut lives)?;
    Ok(set_where(&lives))
}

// A copy of a label, which is UTF-8.
fn copied(alloc: Global, label: &Label) -> Result<Label, AllocError>
    ensures copy { IfOk result (λ copy. copy ≡ label.now) }
    ensures utf8 { IsUtf8 label.now }
{
    Label::of_text(alloc, label.bytes())
}

/// Puts the label of each position of a path after `table`. All of them are UTF-8.
#[cycle(tests)]
#[tactic(auto, using(crate::proofs::Unions::tests_only))]
pub fn push_labels(
    alloc: Global,
    path: &Path,
    table: &mut Vec<Option<Label>>,
) -> Result<(), AllocError>
    ensures labels { OnOk result (table.new.items ≡ table.old.items ++ tests_by path.now.head (tests_of path.now.members)) }
    ensures utf8 { OnOk result (HeadUtf8 path.now.head × AreUtf8 path.now.members) }
{
    match path.node() {
        Node::Name(label) => {
            let label = copied(alloc, label)?;
            table.push(Some(label))?;
            Ok(())
        }
        Node::Any => {
            table.push(None)?;
            Ok(())
        }
        Node::Seq(paths) | Node::Alt(paths) => push_all_labels(alloc, paths, table),
        Node::Star(path) | Node::Plus(path) | Node::Opt(path) => push_labels(alloc, path, table),
    }
}

// Puts the label of each position of several paths after `table`.
#[cycle(tests)]
fn push_all_labels(
    alloc: Global,
    paths: &[Path],
    table: &mut Vec<Option<Label>>,
) -> Result<(), AllocError>
    ensures labels { OnOk result (table.new.items ≡ table.old.items ++ tests_of (paths_of paths.now)) }
    ensures utf8 { OnOk result (AreUtf8 (paths_of paths.now)) }
{
    let Some((first, rest)) = paths.split_first() else {
        return Ok(());
    };
    push_labels(alloc, first, table)?;
    push_all_labels(alloc, rest, table)
}
