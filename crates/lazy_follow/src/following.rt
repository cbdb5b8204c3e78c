// The levels of a text followed one after another, to what the node at their end shows.
ghost use Rattle.std.specs.Prelude.{◌≡◌, ℕ, List, IfOk};
ghost use Rattle.lazy_steps.specs.Steps.{HasCause};
ghost use Rattle.lazy_plan.specs.Bench.{state_of, ops_of, IsBenchOf};
ghost use Rattle.lazy_seek.specs.Seeks.{Sought};
ghost use Rattle.lazy_follow.specs.Ends.{IsTreeAt};
ghost use Rattle.lazy_follow.specs.Levels.{IsListIn};
ghost use Rattle.lazy_follow.specs.Trails.{ahead_reach, GivesFromList, GivesFromPiece, GoesBefore};

use crate::choosing::list_of_piece;
use crate::ends::{TreeAt, end};
use crate::evidence::Evidence;
use crate::levels::{Led, follow_level};
use crate::mark::Shown;
use crate::members::Group;
use lazy_plan::{Bench, WalkFault};
use lxp_core::Sources;
use node_text::Level;
use std::alloc::{AllocError, Global};

/// The levels of a text that are ahead, and the place below the node to which they lead.
#[derive(Clone, Copy)]
pub(crate) struct Ahead<'a> {
    pub levels: &'a [Level],
    pub inside: &'a [u64],
}

/// What was found on the way of levels: for each evidence of the member to which it leads, if it leads to one, and what the node at the end shows.
#[derive(Drop)]
pub(crate) struct Trail {
    pub members: Vec<Option<Evidence>>,
    pub shown: Shown,
}

/// A trail with one level more in front of it.
fn before(member: Option<Evidence>, trail: Option<Trail>) -> Result<Option<Trail>, AllocError>
    ensures { IfOk result (GoesBefore member trail) }
{
    let Some(mut trail) = trail else {
        return Ok(None);
    };
    trail.members.insert(0, member)?;
    Ok(Some(trail))
}

/// What is found where what is ahead is followed from the list that an operator makes; `None` where it can't be followed. It asks at most as many fills as
/// its places reach. `Failed`: this source failed. Every earlier cursor and spot stays, whatever is answered.
#[cycle(following)]
pub(crate) fn follow_list<S: Sources>(
    alloc: Global,
    bench: &mut Bench,
    s: &mut S,
    from: &Group<'_>,
    ahead: &Ahead<'_>,
) -> Result<Option<Trail>, WalkFault>
    requires bench { IsBenchOf (S.view s.old) bench.old }
    requires list { (places : List (List ℕ)) × IsListIn (state_of (S.view s.old) bench.old) places from.now }
    ensures sought { Sought S.view S.came_from (ahead_reach ahead.now) s.old bench.old s.new bench.new }
    ensures cause { HasCause (ops_of (state_of (S.view s.old) bench.old)) (S.view s.old) (S.view s.new) result }
    ensures answer { (places : List (List ℕ)) → let old = state_of (S.view s.old) bench.old in let new = state_of (S.view s.new) bench.new in
        (h : IsListIn old places from.now) → IfOk result (GivesFromList old new places from.now h ahead.now) }
{
    let Some((level, later)) = ahead.levels.split_first() else {
        return Ok(None);
    };
    let Some(led) = follow_level(alloc, bench, s, from, level)? else {
        return Ok(None);
    };
    let ahead = Ahead {
        levels: later,
        inside: ahead.inside,
    };
    match led {
        Led::List(op) => {
            let here = from.here;
            let trail = follow_list(alloc, bench, s, &Group { op, here }, &ahead)?;
            Ok(before(None, trail)?)
        }
        Led::Tree(op, index) => {
            let here = from.here;
            let trail = follow_tree(alloc, bench, s, &TreeAt { op, index, here }, &ahead)?;
            Ok(before(None, trail)?)
        }
        Led::Member(op, there) => {
            let tree = TreeAt {
                op,
                index: 0,
                here: &there,
            };
            let trail = follow_tree(alloc, bench, s, &tree, &ahead)?;
            Ok(before(Some(there), trail)?)
        }
    }
}

/// What is found where what is ahead is followed from the tree of a piece.
#[cycle(following)]
fn follow_tree<S: Sources>(
    alloc: Global,
    bench: &mut Bench,
    s: &mut S,
    tree: &TreeAt<'_>,
    ahead: &Ahead<'_>,
) -> Result<Option<Trail>, WalkFault>
    requires bench { IsBenchOf (S.view s.old) bench.old }
    requires tree { (places : List (List ℕ)) × IsTreeAt (state_of (S.view s.old) bench.old) places tree.now }
    ensures sought { Sought S.view S.came_from (ahead_reach ahead.now) s.old bench.old s.new bench.new }
    ensures cause { HasCause (ops_of (state_of (S.view s.old) bench.old)) (S.view s.old) (S.view s.new) result }
    ensures answer { (places : List (List ℕ)) → let old = state_of (S.view s.old) bench.old in let new = state_of (S.view s.new) bench.new in
        IsTreeAt old places tree.now → IfOk result (GivesFromPiece old new places tree.now ahead.now) }
{
    if ahead.levels.is_empty() {
        let Some(shown) = end(alloc, bench, s, tree, ahead.inside)? else {
            return Ok(None);
        };
        let members = Vec::new(alloc);
        return Ok(Some(Trail { members, shown }));
    }
    let Some(op) = list_of_piece(bench.plan(), tree.op, tree.index) else {
        return Ok(None);
    };
    let here = tree.here;
    follow_list(alloc, bench, s, &Group { op, here }, ahead)
}
