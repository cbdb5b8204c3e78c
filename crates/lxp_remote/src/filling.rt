// Filling one of the sources after a link.
ghost use Rattle.std.specs.Prelude.{◌≡◌, ◌≢◌, ◌<◌, ℕ, length, slice_get};
ghost use Rattle.lxp_remote.specs.Filled.{IsFilled};

use crate::peer::Peer;
use lxp_core::{HoleId, OpenTree, SourceFault};
use lxp_wire::Link;
use std::alloc::Global;

/// Asks the link for the list of a hole of one of the sources. All others stay.
pub fn fill_peer<L: Link>(
    alloc: Global,
    link: &mut L,
    peers: &mut Vec<Peer>,
    source: u32,
    hole: HoleId,
) -> Result<Vec<OpenTree>, SourceFault>
    requires { source < length peers.old.items }
    ensures came { L.came_from link.old link.new }
    ensures filled { let before = slice_get peers.old.items source in let after = slice_get peers.new.items source in
        IsFilled (L.view link.old) (L.view link.new) before after source hole result }
    ensures others { (r : ℕ) → r ≢ source → slice_get peers.new.items r ≡ slice_get peers.old.items r }
    ensures count { length peers.new.items ≡ length peers.old.items }
{
    let peer = &mut peers[source as usize];
    peer.fill(alloc, link, source, hole)
}
