// Writing lists of trees.
ghost use Rattle.std.specs.Prelude.{◌≡◌, ◌++◌, ◌<◌, ◌^◌, ℕ, OnOk, length};
ghost use Rattle.std.specs.Str.{IsUtf8};
ghost use Rattle.lxp_core.specs.Small.{IsSmallWithin};
ghost use Rattle.wire_text.specs.Wired.{nil, without_weights};
ghost use Rattle.wire_text.specs.Bytes.{hole_bytes, label_bytes, list_bytes, trees_bytes};
ghost use Rattle.wire_text.specs.Plain.{plain, put};

use crate::numbers::{push_u32, push_u128, push_words};
use crate::reply::{Hole, WireTree};
use mix_tree::Label;
use std::alloc::AllocError;

/// Writes a hole and its weight after what `out` holds.
pub fn push_hole(out: &mut Vec<u8>, hole: Hole) -> Result<(), AllocError>
    ensures { OnOk result (out.new.items ≡ out.old.items ++ hole_bytes hole.id hole.weight) }
{
    push_words(out, hole.id)?;
    push_u128(out, hole.weight)
}

/// Writes a label after what `out` holds.
pub fn push_label(out: &mut Vec<u8>, label: &Label) -> Result<(), AllocError>
    requires { length label.now < 2 ^ 32 }
    ensures bytes { OnOk result (out.new.items ≡ out.old.items ++ label_bytes label.now) }
    ensures utf8 { OnOk result (∥ IsUtf8 label.now ∥₁) }
{
    let bytes = label.bytes();
    push_u32(out, bytes.len() as u32)?;
    out.extend_from_slice(bytes)?;
    Ok(())
}

// Writes a tree after what `out` holds.
#[cycle(write)]
fn push_tree(out: &mut Vec<u8>, tree: &WireTree) -> Result<(), AllocError>
    requires { (levels : ℕ) × IsSmallWithin levels (without_weights (put tree.now nil)) }
    ensures { OnOk result (out.new.items ≡ out.old.items ++ trees_bytes (put tree.now nil)) }
{
    match tree {
        WireTree::Node { label, kids } => {
            out.push(0)?;
            push_label(out, label)?;
            push_list(out, kids)
        }
        WireTree::Hole(hole) => {
            out.push(1)?;
            push_hole(out, *hole)
        }
    }
}

/// Writes the number of trees and the trees after what `out` holds. An error leaves a prefix of them there.
#[cycle(write)]
pub fn push_list(out: &mut Vec<u8>, trees: &[WireTree]) -> Result<(), AllocError>
    requires few { length trees.now < 2 ^ 32 }
    requires small { (levels : ℕ) × IsSmallWithin levels (without_weights (plain trees.now)) }
    ensures { OnOk result (out.new.items ≡ out.old.items ++ list_bytes (plain trees.now)) }
{
    push_u32(out, trees.len() as u32)?;
    for tree in trees {
        push_tree(out, tree)?;
    }
    Ok(())
}
