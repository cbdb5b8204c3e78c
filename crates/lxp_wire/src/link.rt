// What carries requests to sources and their replies back.
ghost use Rattle.std.specs.Prelude.{◌≡◌, ◌≤◌, ◌<◌, ◌+◌, ℕ, true, IfOk, OnOk, OnErr, IsErrOf};
ghost use Rattle.mix_base.specs.Counts.{HasRisen};
ghost use Rattle.wire_text.specs.declared.request.Request.{Request as Asked};
ghost use Rattle.wire_text.specs.Request.{SpellsRequest};
ghost use Rattle.lxp_wire.specs.Answer.{fills_of};
ghost use Rattle.lxp_wire.specs.Links.{LinkView, KeepsLink, IsReplyOf, ToldRepliesAreRead};

use std::alloc::Global;
use thiserror::Error;

/// Why a request got no reply.
#[derive(Clone, Copy, Debug, PartialEq, Eq, Error)]
pub enum LinkFault {
    /// The link failed. This comes only where its count of faults rose.
    #[error("the link failed")]
    Failed,
    #[error("memory ran out")]
    OutOfMemory,
}

/// What carries requests to sources and their replies back.
pub trait Link {
    /// What this state means.
    ghost view: { Self → LinkView };

    /// `came_from old new` is read "from old came new": calls led from the old state to the new one.
    ghost came_from: { Self → Self → Type 0 };

    /// The reply to a request, whose bytes are given. Where the link tells its sources, it is what these answer.
    fn ask(&mut self, alloc: Global, request: &[u8]) -> Result<Vec<u8>, LinkFault>
        requires { (r : Asked) × SpellsRequest request.now r }
        ensures came { came_from self.old self.new }
        // The counts, and the last reply.
        ensures counted { OnOk result (HasRisen (view self.old).replies (view self.new).replies) }
        ensures uncounted { OnErr result ((view self.new).replies ≡ (view self.old).replies) }
        ensures last { IfOk result (λ reply. (view self.new).last ≡ reply.items) }
        ensures failed { IsErrOf result LinkFault.Failed → HasRisen (view self.old).faults (view self.new).faults }
        // Over a link that tells its sources.
        ensures answers { let old = view self.old in (r : Asked) → SpellsRequest request.now r → old.told ≡ true
            → IfOk result (λ reply. IsReplyOf old.peer (view self.new).peer r reply.items) }
        ensures fills { let old = view self.old in (r : Asked) → SpellsRequest request.now r → old.told ≡ true
            → (view self.new).peer.fills ≤ old.peer.fills + fills_of r };

    /// A state came from itself.
    ghost same: { (a : Self) → came_from a a };

    /// A state that came from one which came from a third came from that third.
    ghost after: { (a b c : Self) → came_from a b → came_from b c → came_from a c };

    /// A state keeps what every call keeps of each state that it came from.
    ghost keeps: { (a b : Self) → came_from a b → KeepsLink (view a) (view b) };

    /// Sources that are told know the holes of their whole documents.
    ghost root_known: { (a : Self) (s : ℕ) → (view a).told ≡ true → s < (view a).peer.count
        → (view a).peer.knows s ((view a).peer.root s) ≡ true };
}

/// A text that told sources reply is read as what they answered.
pub fn told_replies_are_read()
    ensures { ToldRepliesAreRead }
{}
