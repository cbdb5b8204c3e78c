// How many nodes the trees of a document have, so that the weight of a hole is a difference.
ghost use Rattle.std.specs.Prelude.{◌≡◌, ◌<◌, ◌≤◌, ◌^◌, ℕ, suc, length, slice_index, IfOk};
ghost use Rattle.lxp_memory.specs.Nodes.{AreWithin};
ghost use Rattle.lxp_memory.specs.Sums.{AreSums, total_from};

use crate::document::DocNode;
use std::alloc::{AllocError, Global};

// How many nodes the trees from a node on have together, by what those from each node after it on have.
fn total_from(nodes: &[DocNode], sums: &[u128], at: usize) -> u128
    requires node { at < length nodes.now }
    requires within { AreWithin nodes.now 0 }
    requires count { length sums.now ≡ suc (length nodes.now) }
    requires after { (i : ℕ) → at < i → i ≤ length nodes.now → slice_index sums.now i ≡ total_from nodes.now i }
    requires bound { total_from nodes.now 0 < 2 ^ 128 }
    ensures { result ≡ total_from nodes.now at }
{
    let node = &nodes[at];
    let first = at + 1 + node.ahead;
    let below = sums[first] - sums[first + node.count];
    sums[at + 1] + 1 + below
}

/// For each node of a document, and for the end, how many nodes the trees from there on have together. The children of each node stand
/// among the nodes after it, and all trees have fewer than 2^128 nodes together.
pub(crate) fn sums_of(alloc: Global, nodes: &[DocNode]) -> Result<Vec<u128>, AllocError>
    requires within { AreWithin nodes.now 0 }
    requires bound { total_from nodes.now 0 < 2 ^ 128 }
    ensures { IfOk result (λ sums. AreSums nodes.now sums.items) }
{
    let mut sums = vec![in alloc; 0; nodes.len() + 1]?;
    let mut at = nodes.len();
    'nodes: while at > 0 {
        at -= 1;
        sums[at] = total_from(nodes, &sums, at);
    }
    Ok(sums)
}
