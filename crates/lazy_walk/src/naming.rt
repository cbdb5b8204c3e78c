// What the text of an identifier says: the levels that lead to its node, by what is left of the lists on the way there, and the place below.
ghost use Rattle.std.specs.Prelude.{◌≡◌, ◌++◌, [], IfOk, OnOk, drop, length, map};
ghost use Rattle.std.specs.List.{AllByRecursion, list_all};
ghost use Rattle.lazy_binding.specs.World.{place_in};
ghost use Rattle.lazy_plan.specs.Bench.{BenchState, IsSpotAt};
ghost use Rattle.node_text.specs.Node.{level};
ghost use Rattle.plan_evidence.specs.Remains.{levels_of, numbers_in};
ghost use Rattle.lazy_walk.specs.Above.{node_inside, node_levels, rests, rests_above, top_above};
ghost use Rattle.lazy_site.specs.Calls.{InEach, InSome};
ghost use Rattle.lazy_site.specs.Ids.{IsRest};
ghost use Rattle.lazy_site.specs.Levels.{is_below_top, kept_places, said_levels, tuple_at};
ghost use Rattle.lazy_walk.specs.Places.{IsNode};
ghost use Rattle.lazy_site.specs.Standing.{remains};

use crate::ids::{Above, WalkedNode};
use lazy_plan::Bench;
use lazy_site::{Rest, Site};
use mix_tree::Place;
use node_text::Level;
use plan_forms::input_of;
use std::alloc::{AllocError, Global};
use std::rc::Rc;
use tree_buffer::Spot;

/// Adds a level to each of the pieces in which what is left of a list stands.
fn push_pieces(alloc: Global, rest: &Rc<Rest>, levels: &mut Vec<Level>) -> Result<(), AllocError>
    ensures { OnOk result ((st : BenchState) → levels.new.items ≡ levels.old.items ++ map (λ n. level n []) (numbers_in (remains st rest.now.value))) }
{
    let rest: &Rest = rest;
    match rest {
        Rest::End => Ok(()),
        Rest::Pieces { next, up, .. } => {
            push_pieces(alloc, up, levels)?;
            if *next == 0 {
                return Ok(());
            }
            let piece = (*next - 1) as u64;
            let tuple = Vec::new(alloc);
            levels.push(Level { piece, tuple })?;
            Ok(())
        }
        Rest::Members { up, .. } => push_pieces(alloc, up, levels),
        Rest::Group { up, .. } => push_pieces(alloc, up, levels),
    }
}

/// Adds the levels from a list to the node before what is left of it, which the places of a tuple tell from the others of its piece.
fn push_last(
    alloc: Global,
    rest: &Rc<Rest>,
    tuple: Vec<Place>,
    levels: &mut Vec<Level>,
) -> Result<(), AllocError>
    ensures { OnOk result ((st : BenchState) → levels.new.items ≡ levels.old.items ++ levels_of tuple.items (remains st rest.now.value)) }
{
    let rest: &Rest = rest;
    match rest {
        Rest::End => {
            levels.push(Level { piece: 0, tuple })?;
            Ok(())
        }
        Rest::Pieces { next, up, .. } => {
            if *next == 0 {
                return push_last(alloc, up, tuple, levels);
            }
            push_pieces(alloc, up, levels)?;
            let piece = (*next - 1) as u64;
            levels.push(Level { piece, tuple })?;
            Ok(())
        }
        Rest::Members { up, .. } => push_last(alloc, up, tuple, levels),
        Rest::Group { up, .. } => push_last(alloc, up, tuple, levels),
    }
}

/// Whether each of some places is below that of a document node.
fn are_below(places: &[Place]) -> bool
    ensures { result ≡ list_all is_below_top places.now }
{
    for place in places {
        if place.steps().is_empty() {
            return false;
        }
    }
    true
}

/// Some places; none where one of them is that of a document node. What a getDescendants finds is below one, but over sources that don't tell their
/// documents no clause says so.
fn kept(alloc: Global, places: Vec<Place>) -> Vec<Place>
    ensures { result.items ≡ kept_places places.items }
{
    if are_below(&places) {
        places
    } else {
        Vec::new(alloc)
    }
}

/// The places by which the node before what is left of a list is told from the others of its piece.
fn tuple_before(alloc: Global, bench: &Bench, rest: &Rc<Rest>) -> Result<Vec<Place>, AllocError>
    requires { InSome bench.now (λ st. IsRest st rest.now.value) }
    ensures { IfOk result (λ tuple. InEach bench.now (λ st. IsRest st rest.now.value → tuple.items ≡ tuple_at st rest.now.value)) }
{
    let rest: &Rest = rest;
    match rest {
        Rest::Members { op, at, .. } => match at {
            None => Ok(Vec::new(alloc)),
            Some(at) => bench.evidence(alloc, input_of(bench.plan(), *op), at),
        },
        Rest::Group { op, at, .. } => bench.evidence(alloc, input_of(bench.plan(), *op), at),
        _ => Ok(Vec::new(alloc)),
    }
}

/// Levels to an element, with those from its list to the node before what is left of that.
fn with_list(
    alloc: Global,
    bench: &Bench,
    levels: Vec<Level>,
    rest: &Rc<Rest>,
) -> Result<Vec<Level>, AllocError>
    requires { InSome bench.now (λ st. IsRest st rest.now.value) }
    ensures { IfOk result (λ all. InEach bench.now (λ st. let r = rest.now.value in
        IsRest st r → all.items ≡ levels.items ++ levels_of (kept_places (tuple_at st r)) (remains st r))) }
{
    let mut levels = levels;
    let tuple = tuple_before(alloc, bench, rest)?;
    push_last(alloc, rest, kept(alloc, tuple), &mut levels)?;
    Ok(levels)
}

/// The levels to an element, by what is left of its own list and of the lists of those above it.
fn levels_to(alloc: Global, bench: &Bench, above: &Rc<Above>) -> Result<Vec<Level>, AllocError>
    requires { InSome bench.now (λ st. AllByRecursion (IsRest st) (rests above.now.value)) }
    ensures { IfOk result (λ levels. InEach bench.now (λ st. let rests = rests above.now.value in
        AllByRecursion (IsRest st) rests → levels.items ≡ said_levels st rests)) }
{
    let above: &Above = above;
    match above {
        Above::Outer { rest, .. } => with_list(alloc, bench, Vec::new(alloc), rest),
        Above::Inner { rest, up, .. } => {
            let levels = levels_to(alloc, bench, up)?;
            with_list(alloc, bench, levels, rest)
        }
    }
}

/// The levels to the innermost element above a node; none where there is none.
fn levels_above(
    alloc: Global,
    bench: &Bench,
    above: &Option<Rc<Above>>,
) -> Result<Vec<Level>, AllocError>
    requires { InSome bench.now (λ st. AllByRecursion (IsRest st) (rests_above above.now)) }
    ensures { IfOk result (λ levels. InEach bench.now (λ st. let rests = rests_above above.now in
        AllByRecursion (IsRest st) rests → levels.items ≡ said_levels st rests)) }
{
    match above {
        None => Ok(Vec::new(alloc)),
        Some(above) => levels_to(alloc, bench, above),
    }
}

/// The levels to the node of an identifier, or to the top of the subtree of a source in which the node lies.
pub(crate) fn levels_of_node(
    alloc: Global,
    bench: &Bench,
    n: &WalkedNode,
) -> Result<Vec<Level>, AllocError>
    requires { InSome bench.now (λ st. IsNode st n.now) }
    ensures { IfOk result (λ levels. InEach bench.now (λ st. IsNode st n.now → levels.items ≡ node_levels st n.now)) }
{
    match &n.site {
        Site::Root => Ok(Vec::new(alloc)),
        Site::Inside(_, _) => levels_above(alloc, bench, &n.above),
        Site::Item { rest, .. } => {
            let levels = levels_above(alloc, bench, &n.above)?;
            with_list(alloc, bench, levels, rest)
        }
    }
}

/// The place of a node of a source, counted from another one above it.
fn place_below(
    alloc: Global,
    bench: &Bench,
    source: u32,
    top: &Spot,
    p: &Spot,
) -> Result<Place, AllocError>
    requires { InSome bench.now (λ st. IsSpotAt st source top.now × IsSpotAt st source p.now) }
    ensures { IfOk result (λ place. InEach bench.now (λ st. IsSpotAt st source top.now → IsSpotAt st source p.now
        → place ≡ drop (length (place_in st.world source top.now)) (place_in st.world source p.now))) }
{
    let start = bench.place(alloc, source, top)?;
    let place = bench.place(alloc, source, p)?;
    let steps = place.steps();
    let passed = start.steps().len().min(steps.len());
    let mut way = Vec::new(alloc);
    way.extend_from_slice(&steps[passed..])?;
    Ok(Place::new(way))
}

/// The spot that is kept of the top of a source's subtree, where a node lies inside one.
fn top_kept(above: &Option<Rc<Above>>) -> Option<Spot>
    ensures { result ≡ top_above above.now }
{
    let above: &Above = above.as_ref()?;
    match above {
        Above::Outer { top, .. } => *top,
        Above::Inner { top, .. } => *top,
    }
}

/// The place of an identifier's node below the top of the subtree of a source in which it lies; the empty place where it lies in none.
pub(crate) fn place_of_node(
    alloc: Global,
    bench: &Bench,
    n: &WalkedNode,
) -> Result<Place, AllocError>
    requires { InSome bench.now (λ st. IsNode st n.now) }
    ensures { IfOk result (λ place. InEach bench.now (λ st. IsNode st n.now → place ≡ node_inside st n.now)) }
{
    match (&n.site, top_kept(&n.above)) {
        (Site::Inside(source, p), Some(top)) => place_below(alloc, bench, *source, &top, p),
        _ => Ok(Place::new(Vec::new(alloc))),
    }
}
