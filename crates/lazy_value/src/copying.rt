// Copies of what a text says.
ghost use Rattle.std.specs.Prelude.{◌≡◌, ◌++◌, List, ℕ, IfOk, take};
ghost use Rattle.lazy_walk.specs.Stages.{IsStage, part_of};

use lazy_walk::Stage;
use mix_tree::Place;
use node_text::{Level, NodeData};
use std::alloc::{AllocError, Global};

/// A place once more.
fn copy_place(alloc: Global, place: &Place) -> Result<Place, AllocError>
    ensures { IfOk result (λ copy. copy ≡ place.now) }
{
    Ok(Place::new(Vec::from_slice(alloc, place.steps())?))
}

/// Some places once more.
fn copy_places(alloc: Global, places: &[Place]) -> Result<Vec<Place>, AllocError>
    ensures { IfOk result (λ copy. copy.items ≡ places.now) }
{
    let mut copy = Vec::with_capacity(alloc, places.len())?;
    for place in places {
        copy.push(copy_place(alloc, place)?)?;
    }
    Ok(copy)
}

/// A level once more.
fn copy_level(alloc: Global, level: &Level) -> Result<Level, AllocError>
    ensures { IfOk result (λ copy. copy ≡ level.now) }
{
    let piece = level.piece;
    let tuple = copy_places(alloc, &level.tuple)?;
    Ok(Level { piece, tuple })
}

/// Some levels once more.
fn copy_levels(alloc: Global, levels: &[Level]) -> Result<Vec<Level>, AllocError>
    ensures { IfOk result (λ copy. copy.items ≡ levels.now) }
{
    let mut copy = Vec::with_capacity(alloc, levels.len())?;
    for level in levels {
        copy.push(copy_level(alloc, level)?)?;
    }
    Ok(copy)
}

/// What a text says once more.
pub(crate) fn copy_data(alloc: Global, node: &NodeData) -> Result<NodeData, AllocError>
    ensures { IfOk result (λ copy. copy ≡ node.now) }
{
    let levels = copy_levels(alloc, &node.levels)?;
    let inside = copy_place(alloc, &node.inside)?;
    Ok(NodeData { levels, inside })
}

/// A part of what a text says.
pub(crate) fn copy_part(
    alloc: Global,
    node: &NodeData,
    stage: Stage,
) -> Result<NodeData, AllocError>
    requires { IsStage node.now stage }
    ensures { IfOk result (λ copy. copy ≡ part_of node.now stage) }
{
    let levels = copy_levels(alloc, &node.levels[..stage.levels])?;
    let steps = &node.inside.steps()[..stage.steps];
    let inside = Place::new(Vec::from_slice(alloc, steps)?);
    Ok(NodeData { levels, inside })
}
