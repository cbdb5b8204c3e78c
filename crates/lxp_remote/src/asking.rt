// Asking a link, and what is wrong with its replies.
ghost use Rattle.std.specs.Prelude.{◌≡◌, ◌⊎◌, ◌+◌, ◌<◌, ◌≤◌, ℕ, List, true, IfOk, IfErr};
ghost use Rattle.mix_base.specs.Counts.{HasRisen};
ghost use Rattle.wire_text.specs.declared.fault.ReplyFault.TheVariants.{TooDeep as Deep};
ghost use Rattle.wire_text.specs.declared.request.Request.TheVariants.{Fill};
ghost use Rattle.wire_text.specs.Plain.{plain, said};
ghost use Rattle.wire_text.specs.Replies.{RefusesReply, SpellsShallow};
ghost use Rattle.wire_text.specs.Reply.{list as listed};
ghost use Rattle.lxp_wire.specs.Answer.{IsAnswer, fills_of};
ghost use Rattle.lxp_remote.specs.declared.fault.RemoteFault.TheVariants.{Wire};
ghost use Rattle.lxp_remote.specs.declared.fault.WireFault.{WireFault as Cause};
ghost use Rattle.lxp_remote.specs.declared.fault.WireFault.TheVariants.{Link as OfLink, PeerFailed};
ghost use Rattle.lxp_remote.specs.Faults.{ShowsFault};
ghost use Rattle.lxp_remote.specs.Causes.{Asked, HasCome, ShowsBroken};

use crate::fault::{Broken, RemoteFault, WireFault};
use lxp_core::HoleId;
use lxp_wire::{Link, LinkFault};
use std::alloc::Global;
use wire_text::{Reply, ReplyFault, Request, WireTree, read_reply, write_request};

// What too many levels are: a fault of a list, and else a reply to another request.
fn too_deep(request: Request) -> Broken
    ensures { (asked : Asked) (text : List ℕ) (at : ℕ) → asked.request ≡ request → RefusesReply text (Deep at)
        → ShowsBroken asked result text }
{
    match request {
        Request::Count => Broken::WrongReply,
        Request::Root(_) => Broken::WrongReply,
        Request::Fill { .. } => Broken::TooDeep,
    }
}

// What a text that is not read as a reply to a request shows.
fn unread(request: Request, fault: ReplyFault) -> RemoteFault
    ensures shows { (asked : Asked) (text : List ℕ) → asked.request ≡ request → RefusesReply text fault → ShowsFault asked text result }
    ensures memory { fault ≡ ReplyFault.OutOfMemory → result ≡ RemoteFault.OutOfMemory }
{
    let broken = match fault {
        ReplyFault::Unexpected(_) => Broken::NotAReply,
        ReplyFault::Ends => Broken::NotAReply,
        ReplyFault::TooDeep(_) => too_deep(request),
        ReplyFault::OutOfMemory => return RemoteFault::OutOfMemory,
    };
    RemoteFault::Wire(WireFault::BadFragment(broken))
}

/// The reply of a link to a request, which is one of at most 200 levels, though it may be one to another request. Where the
/// link tells its sources, it is what these answer, and only the link fails.
pub fn ask_reply<L: Link>(
    alloc: Global,
    link: &mut L,
    request: Request,
) -> Result<Reply, RemoteFault>
    ensures came { L.came_from link.old link.new }
    ensures fills { let old = L.view link.old in old.told ≡ true → (L.view link.new).peer.fills ≤ old.peer.fills + fills_of request }
    ensures read { let old = L.view link.old in let new = L.view link.new in
        IfOk result (λ reply. HasRisen old.replies new.replies × SpellsShallow new.last (said reply)) }
    ensures answers { let old = L.view link.old in
        old.told ≡ true → IfOk result (λ reply. IsAnswer old.peer (L.view link.new).peer request (said reply)) }
    ensures cause { IfErr result (λ e. (asked : Asked) (fault : Cause) → asked.request ≡ request → e ≡ Wire fault
        → HasCome asked (L.view link.old) (L.view link.new) fault) }
    ensures told { IfErr result (λ e. (fault : Cause) → e ≡ Wire fault → (L.view link.old).told ≡ true → fault ≡ OfLink) }
{
    let Ok(text) = write_request(alloc, &request) else {
        return Err(RemoteFault::OutOfMemory);
    };
    let answer = match link.ask(alloc, &text) {
        Ok(answer) => answer,
        Err(LinkFault::Failed) => return Err(RemoteFault::Wire(WireFault::Link)),
        Err(LinkFault::OutOfMemory) => return Err(RemoteFault::OutOfMemory),
    };
    match read_reply(alloc, &answer) {
        Ok(reply) => Ok(reply),
        Err(fault) => Err(unread(request, fault)),
    }
}

/// The list that a link replies for a hole of a source. Where the link tells its sources, and these know the hole, it is theirs, and
/// only the link or the source fails.
pub fn ask_list<L: Link>(
    alloc: Global,
    link: &mut L,
    source: u32,
    hole: HoleId,
) -> Result<Vec<WireTree>, RemoteFault>
    ensures came { L.came_from link.old link.new }
    ensures fills { let old = L.view link.old in old.told ≡ true → (L.view link.new).peer.fills ≤ old.peer.fills + 1 }
    ensures read { let old = L.view link.old in let new = L.view link.new in
        IfOk result (λ trees. HasRisen old.replies new.replies × SpellsShallow new.last (listed (plain trees.items))) }
    ensures answers { let old = L.view link.old in old.told ≡ true
        → IfOk result (λ trees. IsAnswer old.peer (L.view link.new).peer (Fill source hole) (listed (plain trees.items))) }
    ensures cause { IfErr result (λ e. (asked : Asked) (fault : Cause) → asked.request ≡ Fill source hole → e ≡ Wire fault
        → HasCome asked (L.view link.old) (L.view link.new) fault) }
    ensures told { let old = L.view link.old in IfErr result (λ e. (fault : Cause) → e ≡ Wire fault
        → old.told ≡ true → source < old.peer.count → old.peer.knows source hole ≡ true
        → (fault ≡ OfLink) ⊎ ((fault ≡ PeerFailed) × HasRisen (old.peer.faults source) ((L.view link.new).peer.faults source))) }
{
    let reply = match ask_reply(alloc, link, Request::Fill { source, hole }) {
        Ok(reply) => reply,
        Err(fault) => return Err(fault),
    };
    match reply {
        Reply::List(trees) => Ok(trees),
        Reply::Count(_) => Err(RemoteFault::Wire(WireFault::BadFragment(Broken::WrongReply))),
        Reply::Root(_) => Err(RemoteFault::Wire(WireFault::BadFragment(Broken::WrongReply))),
        Reply::Failed => Err(RemoteFault::Wire(WireFault::PeerFailed)),
        Reply::UnknownHole => Err(RemoteFault::Wire(WireFault::PeerUnknown)),
        Reply::NoMemory => Err(RemoteFault::OutOfMemory),
        Reply::NoSource => Err(RemoteFault::Wire(WireFault::PeerNoSource)),
    }
}
