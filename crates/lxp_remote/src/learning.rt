// Learning the holes of a list that came.
ghost use Rattle.std.specs.Prelude.{◌≡◌, ◌∷◌, [], OnOk, OnErr, IsErrOf, length, take};
ghost use Rattle.lxp_remote.specs.declared.learning.Unlearned.TheVariants.{OutOfMemory};
ghost use Rattle.lxp_remote.specs.Known.{IsChanged};
ghost use Rattle.lxp_remote.specs.Learned.{Learns, weights};
ghost use Rattle.wire_text.specs.Plain.{plain, put};
ghost use Rattle.wire_text.specs.Wired.{nil, holes_of};

use crate::known::KnownHoles;
use lxp_core::HoleId;
use std::alloc::AllocError;
use wire_text::{Hole, WireTree};

/// Why the holes of a list were not learned.
#[derive(Clone, Copy, Debug, PartialEq, Eq)]
pub enum Unlearned {
    /// A hole came with another weight.
    Changed,
    OutOfMemory,
}

impl From<AllocError> for Unlearned {
    ghost from_gives = { λ _ e. e ≡ OutOfMemory };

    fn from(_: AllocError) -> Self {
        Unlearned::OutOfMemory
    }
}

/// The weight of a hole: the root's, or that of one that came.
pub fn known_weight(root: &Hole, known: &KnownHoles, hole: HoleId) -> Option<u128>
    ensures { result ≡ weights root.now known.now hole }
{
    if hole.words == root.id.words {
        return Some(root.weight);
    }
    known.weight(hole)
}

// Learns one hole.
fn learn_hole(root: &Hole, known: &mut KnownHoles, hole: Hole) -> Result<(), Unlearned>
    ensures learned { OnOk result (Learns (weights root.now known.old) (weights root.now known.new) ((hole.id, hole.weight) ∷ [])) }
    ensures changed { IsErrOf result Unlearned.Changed → IsChanged (weights root.now known.old) ((hole.id, hole.weight) ∷ []) }
    ensures prefix { take (length known.old) known.new ≡ known.old }
{
    match known_weight(root, known, hole.id) {
        Some(weight) if weight == hole.weight => Ok(()),
        Some(_) => Err(Unlearned::Changed),
        None => {
            known.put(hole.id, hole.weight)?;
            Ok(())
        }
    }
}

// Learns the holes of a list, from the first one on; where it stops, those before are learned.
#[cycle(learn)]
fn learn_tree(root: &Hole, known: &mut KnownHoles, tree: &WireTree) -> Result<(), Unlearned>
    ensures learned { OnOk result (Learns (weights root.now known.old) (weights root.now known.new) (holes_of (put tree.now nil))) }
    ensures changed { IsErrOf result Unlearned.Changed → IsChanged (weights root.now known.old) (holes_of (put tree.now nil)) }
    ensures prefix { take (length known.old) known.new ≡ known.old }
{
    match tree {
        WireTree::Node { kids, .. } => learn_list(root, known, kids),
        WireTree::Hole(hole) => learn_hole(root, known, *hole),
    }
}

// Learns the holes of a list.
#[cycle(learn)]
fn learn_list(root: &Hole, known: &mut KnownHoles, trees: &[WireTree]) -> Result<(), Unlearned>
    ensures learned { OnOk result (Learns (weights root.now known.old) (weights root.now known.new) (holes_of (plain trees.now))) }
    ensures changed { IsErrOf result Unlearned.Changed → IsChanged (weights root.now known.old) (holes_of (plain trees.now)) }
    ensures prefix { take (length known.old) known.new ≡ known.old }
{
    for tree in trees {
        learn_tree(root, known, tree)?;
    }
    Ok(())
}

/// Learns the holes of a list with their weights, all of them or, after an error, none.
pub fn learn(root: &Hole, known: &mut KnownHoles, trees: &[WireTree]) -> Result<(), Unlearned>
    ensures learned { OnOk result (Learns (weights root.now known.old) (weights root.now known.new) (holes_of (plain trees.now))) }
    ensures changed { IsErrOf result Unlearned.Changed → IsChanged (weights root.now known.old) (holes_of (plain trees.now)) }
    ensures prefix { take (length known.old) known.new ≡ known.old }
    ensures kept { OnErr result (known.new ≡ known.old) }
{
    let count = known.len();
    let learned = learn_list(root, known, trees);
    if learned.is_err() {
        known.truncate(count);
    }
    learned
}
