// A source of one leaf, which tells the weight of its hole.
ghost use Rattle.std.specs.Prelude.{◌≡◌, [], ◌∷◌, IfOk};
ghost use Rattle.lxp_core.specs.Open.{node, nil};
ghost use Rattle.lxp_core.specs.Plain.{plain};

use lxp_core::{HoleId, OpenTree, SourceFault, Sources, Weighed};
use mix_tree::Label;
use std::alloc::{AllocError, Global};

/// The words of the hole that stands for the document.
pub const ROOT: [u64; 3] = [0, 0, 7];

/// A source of one leaf `c`.
#[derive(Drop)]
pub struct Leaf {
    pub fills: u64,
}

// The list of the leaf alone.
fn make_list(alloc: Global) -> Result<Vec<OpenTree>, AllocError>
    ensures { IfOk result (λ list. plain list.items ≡ node (99 ∷ []) nil nil) }
{
    let mut list = Vec::new(alloc);
    let label = Label::of_text(alloc, b"c")?;
    list.push(OpenTree::Node {
        label,
        kids: Vec::new(alloc),
    })?;
    Ok(list)
}

impl Sources for Leaf {
    ghost use Rattle.wire_tests.specs.Leaves.{leaf_view, CameFrom, came_same, came_after, came_keeps, root_is_known};

    ghost view = { leaf_view };

    ghost came_from = { CameFrom };

    fn count(&self) -> u32 {
        1
    }

    fn get_root(&self, _s: u32) -> HoleId {
        HoleId { words: ROOT }
    }

    fn fill(&mut self, alloc: Global, _s: u32, hole: HoleId) -> Result<Vec<OpenTree>, SourceFault> {
        if hole.words != ROOT {
            return Err(SourceFault::UnknownHole);
        }
        let list = make_list(alloc)?;
        self.fills = self.fills.saturating_add(1);
        Ok(list)
    }

    ghost same = { came_same };

    ghost after = { came_after };

    ghost keeps = { came_keeps };

    ghost root_known = { root_is_known };
}

impl Weighed for Leaf {
    ghost use Rattle.wire_tests.specs.Leaves.{is_small};

    fn weight(&self, _s: u32, hole: HoleId) -> Option<u128> {
        if hole.words == ROOT { Some(1) } else { None }
    }

    ghost all_small = { is_small };
}
