// Which holes have the words of a far source's whole document.
ghost use Rattle.std.specs.Prelude.{◌≡◌};
ghost use Rattle.lxp_core.specs.Open.{nil};
ghost use Rattle.lxp_core.specs.Plain.{plain, put};
ghost use Rattle.far_keep.specs.Names.{is_far_root};
ghost use Rattle.far_links.specs.Holes.{names_root};

use far_keep::far_root;
use lxp_core::{HoleId, OpenTree};

/// Whether a hole stands for the whole document of a far source.
pub fn is_far_root(hole: HoleId) -> bool
    ensures { result ≡ is_far_root hole }
{
    hole == far_root()
}

// Whether a tree has a hole with the words of a whole document.
#[cycle(look)]
fn tree_names_root(tree: &OpenTree) -> bool
    ensures { result ≡ names_root (put tree.now nil) }
{
    match tree {
        OpenTree::Node { kids, .. } => list_names_root(kids),
        OpenTree::Hole(hole) => is_far_root(*hole),
    }
}

/// Whether a hole of a list, at any depth, has the words of a whole document.
#[cycle(look)]
pub fn list_names_root(trees: &[OpenTree]) -> bool
    ensures { result ≡ names_root (plain trees.now) }
{
    for tree in trees {
        if tree_names_root(tree) {
            return true;
        }
    }
    false
}
