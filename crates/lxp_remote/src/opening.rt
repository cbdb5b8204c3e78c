// Lists that came, without the weights.
ghost use Rattle.std.specs.Prelude.{◌≡◌, IfOk, List};
ghost use Rattle.lxp_core.specs.Open.{nil as open_nil};
ghost use Rattle.lxp_core.specs.Plain.{plain as open_plain, put as open_put};
ghost use Rattle.wire_text.specs.Wired.{nil, without_weights};
ghost use Rattle.wire_text.specs.Plain.{plain, put};

use lxp_core::OpenTree;
use std::alloc::{AllocError, Global};
use wire_text::WireTree;

// A tree without the weights.
#[cycle(open)]
fn open_tree(alloc: Global, tree: WireTree) -> Result<OpenTree, AllocError>
    ensures { IfOk result (λ t. open_put t open_nil ≡ without_weights (put tree nil)) }
{
    match tree {
        WireTree::Node { label, kids } => {
            let kids = open_list(alloc, kids)?;
            Ok(OpenTree::Node { label, kids })
        }
        WireTree::Hole(hole) => Ok(OpenTree::Hole(hole.id)),
    }
}

/// A list without the weights.
#[cycle(open)]
pub fn open_list(alloc: Global, trees: Vec<WireTree>) -> Result<Vec<OpenTree>, AllocError>
    ensures { IfOk result (λ list. open_plain list.items ≡ without_weights (plain trees.items)) }
{
    let mut list = Vec::new(alloc);
    for tree in trees {
        list.push(open_tree(alloc, tree)?)?;
    }
    Ok(list)
}
