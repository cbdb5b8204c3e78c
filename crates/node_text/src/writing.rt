// Writing the text of an identifier.
ghost use Rattle.std.specs.Prelude.{◌≡◌, ◌<◌, ◌++◌, IfOk, OnOk, length};
ghost use Rattle.std.specs.List.{AllByRecursion};
ghost use Rattle.std.specs.Fmt.{decimal};
ghost use Rattle.node_text.specs.Node.{AreWords, ArePlaces, IsFormed, IsLevelSmall};
ghost use Rattle.node_text.specs.Grammar.{between, place_text, tuple_text, level_text, levels_text, inside_text, node_text, Spells};

use crate::data::{Level, NodeData};
use mix_tree::Place;
use std::alloc::{AllocError, Global};

// Writes a number.
fn push_number(out: &mut Vec<u8>, number: u64) -> Result<(), AllocError>
    ensures { OnOk result (out.new.items ≡ out.old.items ++ decimal number) }
{
    let alloc = *out.allocator();
    let digits = number.to_string(alloc)?;
    out.extend_from_slice(digits.as_bytes())?;
    Ok(())
}

// Writes numbers with dots between them.
fn push_steps(out: &mut Vec<u8>, steps: &[u64]) -> Result<(), AllocError>
    ensures text { OnOk result (out.new.items ≡ out.old.items ++ place_text steps.now) }
    ensures small { AreWords steps.now }
{
    let Some((first, rest)) = steps.split_first() else {
        return Ok(());
    };
    push_number(out, *first)?;
    for step in rest {
        out.push(b'.')?;
        push_number(out, *step)?;
    }
    Ok(())
}

// Writes places with commas between them.
fn push_places(out: &mut Vec<u8>, places: &[Place]) -> Result<(), AllocError>
    ensures text { OnOk result (out.new.items ≡ out.old.items ++ between 44 place_text places.now) }
    ensures small { OnOk result (AllByRecursion AreWords places.now) }
{
    let Some((first, rest)) = places.split_first() else {
        return Ok(());
    };
    push_steps(out, first.steps())?;
    for place in rest {
        out.push(b',')?;
        push_steps(out, place.steps())?;
    }
    Ok(())
}

// Writes a level.
fn push_level(out: &mut Vec<u8>, level: &Level) -> Result<(), AllocError>
    ensures text { OnOk result (out.new.items ≡ out.old.items ++ level_text level.now) }
    ensures small { OnOk result (IsLevelSmall level.now) }
{
    push_number(out, level.piece)?;
    if level.tuple.is_empty() {
        return Ok(());
    }
    out.push(b'(')?;
    push_places(out, &level.tuple)?;
    out.push(b')')?;
    Ok(())
}

// Writes levels with slashes between them.
fn push_levels(out: &mut Vec<u8>, levels: &[Level]) -> Result<(), AllocError>
    ensures text { OnOk result (out.new.items ≡ out.old.items ++ levels_text levels.now) }
    ensures small { OnOk result (AllByRecursion IsLevelSmall levels.now) }
{
    let Some((first, rest)) = levels.split_first() else {
        return Ok(());
    };
    push_level(out, first)?;
    for level in rest {
        out.push(b'/')?;
        push_level(out, level)?;
    }
    Ok(())
}

/// The text of an identifier (docs/FORMATS.md, "Identifiers"), which `read_node` reads as that identifier. `Err`: memory.
pub fn write_node(alloc: Global, node: &NodeData) -> Result<Vec<u8>, AllocError>
    requires { IsFormed node.now }
    ensures { IfOk result (λ text. Spells text.items node.now) }
{
    let mut text = Vec::new(alloc);
    if node.levels.is_empty() {
        text.push(b'-')?;
        return Ok(text);
    }
    push_levels(&mut text, &node.levels)?;
    if !node.inside.steps().is_empty() {
        text.push(b':')?;
        push_steps(&mut text, node.inside.steps())?;
    }
    Ok(text)
}
