// Asking a link how many sources it has, and for their roots.
ghost use Rattle.std.specs.Prelude.{◌≡◌, ◌≤◌, ◌<◌, ◌^◌, ℕ, true, length, IfOk, IfErr};
ghost use Rattle.wire_text.specs.declared.request.Request.TheVariants.{Count, Root};
ghost use Rattle.wire_text.specs.Reply.{count as counted, root as rooted};
ghost use Rattle.lxp_wire.specs.Answer.{AnswersCount, AnswersRoot};
ghost use Rattle.lxp_remote.specs.declared.fault.RemoteFault.TheVariants.{Wire};
ghost use Rattle.lxp_remote.specs.declared.fault.WireFault.{WireFault as Cause};
ghost use Rattle.lxp_remote.specs.declared.fault.WireFault.TheVariants.{Link as OfLink};
ghost use Rattle.lxp_remote.specs.Causes.{Asked, HasCome};
ghost use Rattle.lxp_remote.specs.Opened.{AreUnfilled, IsRefusedFor};
ghost use Rattle.lxp_remote.specs.Remotes.{Agrees, AreOfPeer};

use crate::asking::ask_reply;
use crate::fault::{Broken, RemoteFault, WireFault};
use crate::peer::Peer;
use lxp_wire::Link;
use std::alloc::Global;
use wire_text::{Hole, Reply, Request};

// How many sources a link has.
fn ask_count<L: Link>(alloc: Global, link: &mut L) -> Result<u32, RemoteFault>
    ensures came { L.came_from link.old link.new }
    ensures fills { let old = L.view link.old in old.told ≡ true → (L.view link.new).peer.fills ≤ old.peer.fills }
    ensures answers { let old = L.view link.old in IfOk result (λ n. old.told ≡ true → AnswersCount old.peer (counted n)) }
    ensures cause { IfErr result (λ e. (asked : Asked) (fault : Cause) → asked.request ≡ Count → e ≡ Wire fault
        → HasCome asked (L.view link.old) (L.view link.new) fault) }
    ensures told { IfErr result (λ e. (fault : Cause) → e ≡ Wire fault → (L.view link.old).told ≡ true → fault ≡ OfLink) }
{
    let reply = match ask_reply(alloc, link, Request::Count) {
        Ok(reply) => reply,
        Err(fault) => return Err(fault),
    };
    match reply {
        Reply::Count(count) => Ok(count),
        Reply::Root(_) => Err(RemoteFault::Wire(WireFault::BadFragment(Broken::WrongReply))),
        Reply::List(_) => Err(RemoteFault::Wire(WireFault::BadFragment(Broken::WrongReply))),
        Reply::Failed => Err(RemoteFault::Wire(WireFault::PeerFailed)),
        Reply::UnknownHole => Err(RemoteFault::Wire(WireFault::PeerUnknown)),
        Reply::NoMemory => Err(RemoteFault::OutOfMemory),
        Reply::NoSource => Err(RemoteFault::Wire(WireFault::PeerNoSource)),
    }
}

// The root of a source after a link, with its weight.
fn ask_root<L: Link>(alloc: Global, link: &mut L, source: u32) -> Result<Hole, RemoteFault>
    ensures came { L.came_from link.old link.new }
    ensures fills { let old = L.view link.old in old.told ≡ true → (L.view link.new).peer.fills ≤ old.peer.fills }
    ensures answers { let old = L.view link.old in IfOk result (λ hole.
        old.told ≡ true → AnswersRoot old.peer source (rooted hole.id hole.weight)) }
    ensures cause { IfErr result (λ e. (asked : Asked) (fault : Cause) → asked.request ≡ Root source → e ≡ Wire fault
        → HasCome asked (L.view link.old) (L.view link.new) fault) }
    ensures told { let old = L.view link.old in IfErr result (λ e. (fault : Cause) → e ≡ Wire fault
        → old.told ≡ true → source < old.peer.count → fault ≡ OfLink) }
{
    let reply = match ask_reply(alloc, link, Request::Root(source)) {
        Ok(reply) => reply,
        Err(fault) => return Err(fault),
    };
    match reply {
        Reply::Root(hole) => Ok(hole),
        Reply::Count(_) => Err(RemoteFault::Wire(WireFault::BadFragment(Broken::WrongReply))),
        Reply::List(_) => Err(RemoteFault::Wire(WireFault::BadFragment(Broken::WrongReply))),
        Reply::Failed => Err(RemoteFault::Wire(WireFault::PeerFailed)),
        Reply::UnknownHole => Err(RemoteFault::Wire(WireFault::PeerUnknown)),
        Reply::NoMemory => Err(RemoteFault::OutOfMemory),
        Reply::NoSource => Err(RemoteFault::Wire(WireFault::PeerNoSource)),
    }
}

// The first sources of a link, so many, of which each is asked for its root.
fn ask_roots<L: Link>(alloc: Global, link: &mut L, count: u32) -> Result<Vec<Peer>, RemoteFault>
    ensures came { L.came_from link.old link.new }
    ensures fills { let old = L.view link.old in old.told ≡ true → (L.view link.new).peer.fills ≤ old.peer.fills }
    ensures number { IfOk result (λ peers. length peers.items ≡ count) }
    ensures unfilled { IfOk result (λ peers. AreUnfilled peers.items) }
    ensures each { IfOk result (λ peers. (L.view link.old).told ≡ true → AreOfPeer (L.view link.new).peer peers.items) }
    ensures cause { IfErr result (λ e. (fault : Cause) → e ≡ Wire fault → IsRefusedFor (L.view link.old) (L.view link.new) fault) }
    ensures told { let old = L.view link.old in IfErr result (λ e. (fault : Cause) → e ≡ Wire fault
        → old.told ≡ true → count ≤ old.peer.count → fault ≡ OfLink) }
{
    let mut peers = Vec::new(alloc);
    for source in 0..count {
        let root = match ask_root(alloc, link, source) {
            Ok(root) => root,
            Err(fault) => return Err(fault),
        };
        match peers.push(Peer::new(alloc, root)) {
            Ok(()) => {}
            Err(_) => return Err(RemoteFault::OutOfMemory),
        }
    }
    Ok(peers)
}

/// The sources of a link, which is asked how many they are, and for the root of each. Over a link that tells its sources, these are they,
/// and no fill is asked.
pub fn ask_peers<L: Link>(alloc: Global, link: &mut L) -> Result<Vec<Peer>, RemoteFault>
    ensures came { L.came_from link.old link.new }
    ensures fills { let old = L.view link.old in old.told ≡ true → (L.view link.new).peer.fills ≤ old.peer.fills }
    ensures few { IfOk result (λ peers. length peers.items < 2 ^ 32) }
    ensures unfilled { IfOk result (λ peers. AreUnfilled peers.items) }
    ensures agrees { IfOk result (λ peers. (L.view link.old).told ≡ true → Agrees (L.view link.new) peers.items) }
    ensures cause { IfErr result (λ e. (fault : Cause) → e ≡ Wire fault → IsRefusedFor (L.view link.old) (L.view link.new) fault) }
    ensures told { IfErr result (λ e. (fault : Cause) → e ≡ Wire fault → (L.view link.old).told ≡ true → fault ≡ OfLink) }
{
    let count = match ask_count(alloc, link) {
        Ok(count) => count,
        Err(fault) => return Err(fault),
    };
    ask_roots(alloc, link, count)
}
