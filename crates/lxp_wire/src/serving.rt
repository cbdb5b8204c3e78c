// Writing what sources answer.
ghost use Rattle.std.specs.Prelude.{◌≡◌, ◌++◌, ◌<◌, ◌^◌, ℕ, OnOk, length};
ghost use Rattle.lxp_core.specs.Open.{nil as open_nil};
ghost use Rattle.lxp_core.specs.Plain.{plain as open_plain, put as open_put};
ghost use Rattle.lxp_core.specs.Small.{IsSmallWithin};
ghost use Rattle.wire_text.specs.Wired.{with_weights};
ghost use Rattle.wire_text.specs.Bytes.{AreTrees, IsHole, list_bytes, trees_bytes};

use lxp_core::{HoleId, OpenTree, Weighed};
use std::alloc::AllocError;
use wire_text::{Hole, push_hole, push_label, push_u32};

// Writes a tree after what `out` holds, each hole with its weight. All its holes are known.
#[cycle(serve)]
fn push_open<S: Weighed>(
    out: &mut Vec<u8>,
    sources: &S,
    s: u32,
    tree: &OpenTree,
) -> Result<(), AllocError>
    requires source { s < (S.view sources.now).count }
    requires small { (levels : ℕ) × IsSmallWithin levels (open_put tree.now open_nil) }
    ensures bytes { OnOk result (out.new.items
        ≡ out.old.items ++ trees_bytes (with_weights ((S.view sources.now).weight s) (open_put tree.now open_nil))) }
    ensures trees { OnOk result (AreTrees (with_weights ((S.view sources.now).weight s) (open_put tree.now open_nil))) }
{
    match tree {
        OpenTree::Node { label, kids } => {
            out.push(0)?;
            push_label(out, label)?;
            push_open_list(out, sources, s, kids)?;
        }
        OpenTree::Hole(id) => {
            let Some(weight) = sources.weight(s, *id) else {
                return Err(AllocError);
            };
            out.push(1)?;
            push_hole(out, whole_hole(*id, weight))?;
        }
    }
    Ok(())
}

/// A hole with its weight.
pub fn whole_hole(id: HoleId, weight: u128) -> Hole
    ensures id { result.id ≡ id }
    ensures weight { result.weight ≡ weight }
    ensures hole { IsHole id }
    ensures fits { weight < 2 ^ 128 }
{
    let [_, _, _] = id.words;
    Hole { id, weight }
}

/// Writes the number of trees and the trees after what `out` holds, each hole with its weight.
#[cycle(serve)]
pub fn push_open_list<S: Weighed>(
    out: &mut Vec<u8>,
    sources: &S,
    s: u32,
    trees: &[OpenTree],
) -> Result<(), AllocError>
    requires source { s < (S.view sources.now).count }
    requires few { length trees.now < 2 ^ 32 }
    requires small { (levels : ℕ) × IsSmallWithin levels (open_plain trees.now) }
    ensures bytes { OnOk result (out.new.items
        ≡ out.old.items ++ list_bytes (with_weights ((S.view sources.now).weight s) (open_plain trees.now))) }
    ensures trees { OnOk result (AreTrees (with_weights ((S.view sources.now).weight s) (open_plain trees.now))) }
{
    push_u32(out, trees.len() as u32)?;
    for tree in trees {
        push_open(out, sources, s, tree)?;
    }
    Ok(())
}
