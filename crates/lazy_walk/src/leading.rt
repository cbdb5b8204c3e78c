// Whether the levels of a text lead to a node, by what is left of its list after it.
ghost use Rattle.std.specs.Prelude.{◌≡◌, ◌<◌, ◌≤◌, ℕ, List, IsTrue, MatchOption, length, slice_get};
ghost use Rattle.plan_evidence.specs.Remains.{numbers_in};
ghost use Rattle.plan_levels.specs.Entered.{numbers_of};
ghost use Rattle.lazy_follow.specs.Marks.{AreMembers};
ghost use Rattle.lazy_plan.specs.Bench.{BenchState, IsCursor, told};
ghost use Rattle.lazy_site.specs.Calls.{InEach, InSome};
ghost use Rattle.lazy_site.specs.Ids.{IsRest};
ghost use Rattle.lazy_site.specs.Standing.{remains};
ghost use Rattle.lazy_walk.specs.Leading.{BeginWith, BeginsThrough, HasSpots, IsAgreed, LeadsHere, TellsMember, numbers_with, own_numbers};

use lazy_follow::{Evidence, agrees};
use lazy_plan::{Bench, Cursor};
use lazy_site::Rest;
use node_text::Level;
use plan_forms::input_of;
use std::rc::Rc;

/// The number of a level; `None` where there are no more levels.
fn number_at(levels: &[Level], i: usize) -> Option<u64>
    ensures { result ≡ slice_get (numbers_of levels.now) i }
{
    if i < levels.len() {
        let level = &levels[i];
        Some(level.piece)
    } else {
        None
    }
}

/// How many levels go through some pieces and then through the last that was passed of others, if one was; `None` where they go through another.
fn levels_with(through: usize, next: usize, levels: &[Level]) -> Option<usize>
    ensures { (ns : List ℕ) → through ≡ length ns → BeginWith ns levels.now → BeginsThrough (numbers_with ns next) levels.now result }
{
    if next == 0 {
        return Some(through);
    }
    match number_at(levels, through) {
        None => None,
        Some(number) => {
            if number == (next - 1) as u64 {
                Some(through + 1)
            } else {
                None
            }
        }
    }
}

/// How many of the levels ahead go through the pieces in which what is left of a list stands; `None` where they go through others.
fn levels_through(rest: &Rc<Rest>, levels: &[Level]) -> Option<usize>
    ensures { (st : BenchState) → BeginsThrough (numbers_in (remains st rest.now.value)) levels.now result }
{
    let rest: &Rest = rest;
    match rest {
        Rest::End => Some(0),
        Rest::Pieces { next, up, .. } => match levels_through(up, levels) {
            None => None,
            Some(through) => levels_with(through, *next, levels),
        },
        Rest::Members { up, .. } => levels_through(up, levels),
        Rest::Group { up, .. } => levels_through(up, levels),
    }
}

/// How many of the levels ahead have the numbers of those to the node before what is left of a list; `None` where they have others. The list of a groupBy
/// by itself is piece 0 alone.
fn levels_alike(rest: &Rc<Rest>, levels: &[Level]) -> Option<usize>
    ensures { (st : BenchState) → BeginsThrough (own_numbers (remains st rest.now.value)) levels.now result }
{
    match levels_through(rest, levels) {
        None => None,
        Some(through) => {
            if through == 0 {
                levels_with(0, 1, levels)
            } else {
                Some(through)
            }
        }
    }
}

/// Whether evidence, if there is some, is that of the binding of a cursor of an operator.
fn is_of(bench: &Bench, evidence: &Option<Evidence>, op: u32, at: &Cursor) -> bool
    requires cursor { InSome bench.now (λ st. IsCursor st op at.now × HasSpots st evidence.now) }
    ensures { (places : List (List ℕ)) → InEach bench.now (λ st.
        IsCursor st op at.now → IsTrue (told st) → IsAgreed st places op at.now evidence.now result) }
{
    match evidence {
        None => false,
        Some(e) => e.op == op && agrees(bench, e, at),
    }
}

/// Whether evidence is that of the member before what is left of a list; true where no member is there, but the tree of a piece.
fn tells_member(bench: &Bench, rest: &Rc<Rest>, evidence: &Option<Evidence>) -> bool
    requires { InSome bench.now (λ st. IsRest st rest.now.value × HasSpots st evidence.now) }
    ensures { (places : List (List ℕ)) → InEach bench.now (λ st.
        IsRest st rest.now.value → IsTrue (told st) → TellsMember st places rest.now.value evidence.now result) }
{
    let rest: &Rest = rest;
    match rest {
        Rest::Members { op, at, .. } => match at {
            None => true,
            Some(at) => is_of(bench, evidence, input_of(bench.plan(), *op), at),
        },
        Rest::Group { op, at, .. } => is_of(bench, evidence, input_of(bench.plan(), *op), at),
        _ => true,
    }
}

/// How many of the levels ahead lead to the node before what is left of its list, by their numbers and by the evidence of the last of them; `None` where
/// they lead to another node. No fill is asked.
pub(crate) fn levels_led(
    bench: &Bench,
    rest: &Rc<Rest>,
    levels: &[Level],
    members: &[Option<Evidence>],
) -> Option<usize>
    requires { InSome bench.now (λ st. IsRest st rest.now.value × AreMembers st levels.now members.now) }
    ensures within { MatchOption result (Unit {0}) (λ count. (0 < count) × (count ≤ length levels.now)) }
    ensures leads { InEach bench.now (λ st. IsRest st rest.now.value → AreMembers st levels.now members.now → IsTrue (told st)
        → LeadsHere st rest.now.value levels.now members.now result) }
{
    match levels_alike(rest, levels) {
        None => None,
        Some(count) => {
            if tells_member(bench, rest, &members[count - 1]) {
                Some(count)
            } else {
                None
            }
        }
    }
}
