// The places of the nodes at a position's parts: one for each getDescendants on the way to it.
ghost use Rattle.std.specs.Prelude.{◌≡◌, ◌<◌, IsTrue, IfOk, None, length, replicate};
ghost use Rattle.plan_core.specs.Shapes.{shape_at};
ghost use Rattle.lazy_binding.specs.Cursors.{has_row};
ghost use Rattle.lazy_binding.specs.Parts.{operators, IsFixed};
ghost use Rattle.lazy_binding.specs.Reading.{HasStand};
ghost use Rattle.lazy_evidence.specs.Noted as notes;
ghost use Rattle.lazy_evidence.specs.Noted.{spots_at, places_there, AreSpots};
ghost use Rattle.lazy_evidence.specs.Tells.{AreOfParts, TellsEvidence};

use lazy_binding::{Fixed, Growing, Position, Walk};
use mix_tree::Place;
use plan_core::Op;
use std::alloc::{AllocError, Global};
use tree_buffer::{Buffer, Spot};

/// Puts the spot of each getDescendants on the way to a position of an operator, with its source, at the number of the getDescendants.
fn note(fixed: &Fixed, n: usize, at: &Position, spots: &mut Vec<Option<(u32, Spot)>>)
    requires fixed { IsFixed fixed.now }
    requires op { n < length (operators fixed.now) }
    requires length { length spots.old.items ≡ length (operators fixed.now) }
    ensures length { length spots.new.items ≡ length spots.old.items }
    ensures spots { spots.new.items ≡ notes.noted (operators fixed.now) n (shape_at (operators fixed.now) n) at.now spots.old.items }
{
    match fixed.operator(n) {
        Op::Source { .. } | Op::TupleDestroy { .. } => {}
        Op::GetDescendants { input, .. } => {
            if let Position::Found(source, below, cursor) = at {
                spots[n] = Some((*source, *cursor.spot()));
                note(fixed, *input as usize, below, spots);
            }
        }
        Op::Join { left, right, .. } => {
            if let Position::Pair(l, r, _) = at {
                note(fixed, *left as usize, l, spots);
                note(fixed, *right as usize, r, spots);
            }
        }
        Op::Select { input, .. }
        | Op::Concatenate { input, .. }
        | Op::CreateElement { input, .. }
        | Op::Project { input, .. }
        | Op::GroupBy { input, .. }
        | Op::OrderBy { input, .. } => match at {
            Position::Pass(below) | Position::First(below, _) => {
                note(fixed, *input as usize, below, spots);
            }
            Position::Sorted(list, index) => {
                if let Some(below) = list.get(*index) {
                    note(fixed, *input as usize, below, spots);
                }
            }
            _ => {}
        },
    }
}

/// No spot for each of so many operators.
fn no_spots(alloc: Global, count: usize) -> Result<Vec<Option<(u32, Spot)>>, AllocError>
    ensures { IfOk result (λ spots. spots.items ≡ replicate count None) }
{
    let mut spots = Vec::new(alloc);
    for _ in 0..count {
        spots.push(None)?;
    }
    Ok(spots)
}

/// The places of the spots that are there.
fn places(
    alloc: Global,
    buffers: &[Buffer],
    spots: &[Option<(u32, Spot)>],
) -> Result<Vec<Place>, AllocError>
    requires { AreSpots buffers.now spots.now }
    ensures { IfOk result (λ places. places.items ≡ places_there buffers.now spots.now) }
{
    let mut places = Vec::new(alloc);
    for spot in spots {
        if let Some((source, spot)) = spot {
            places.push(buffers[*source as usize].place(alloc, spot)?)?;
        }
    }
    Ok(places)
}

/// Evidence of a position's binding: the places of the nodes that the getDescendants on the way to it have found, in the order of their numbers. No fill
/// is asked.
pub fn evidence(
    alloc: Global,
    walk: Walk,
    growing: &Growing,
    at: &Position,
) -> Result<Vec<Place>, AllocError>
    requires fixed { IsFixed walk.fixed.now }
    requires op { walk.op < length (operators walk.fixed.now) }
    requires stand { HasStand growing.now walk at.now }
    requires row { IsTrue (has_row at.now) }
    ensures parts { IfOk result (λ places. AreOfParts growing.now walk.entry at.now places.items) }
    ensures tells { IfOk result (λ places. TellsEvidence growing.now walk.entry at.now places.items) }
{
    let mut spots = no_spots(alloc, walk.fixed.plan.ops.len())?;
    note(walk.fixed, walk.op, at, &mut spots);
    places(alloc, &growing.buffers, &spots)
}
