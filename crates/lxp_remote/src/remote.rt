// Sources after a link.
ghost use Rattle.std.specs.Prelude.{◌≡◌, ◌<◌, ◌^◌, true, length};
ghost use Rattle.lxp_remote.specs.Remotes.{Agrees};

use crate::fault::{RemoteRefused, WireFault};
use crate::filling::fill_peer;
use crate::peer::Peer;
use crate::roots::ask_peers;
use lxp_core::{HoleId, OpenTree, SourceFault, Sources, Weighed};
use lxp_wire::Link;
use std::alloc::Global;

/// The sources after a link, as sources. A hole of one is known where it is its root or came in a list that a fill of it answered.
#[derive(Drop)]
pub struct Remote<L: Link> {
    link: L,
    peers: Vec<Peer>,
    fills: u64,
    ghost few: { length peers.items < 2 ^ 32 },
    ghost agrees: { (L.view link).told ≡ true → Agrees (L.view link) peers.items },
}

impl<L: Link> Remote<L> {
    ghost use Rattle.std.specs.Prelude.{◌≡◌, ◌<◌, ◌≤◌, ℕ, true, slice_get, MatchResult, IfOk, IfErr};
    ghost use Rattle.lxp_remote.specs.declared.fault.RemoteFault.TheVariants.{Wire};
    ghost use Rattle.lxp_remote.specs.declared.fault.WireFault.{WireFault as Cause};
    ghost use Rattle.lxp_remote.specs.declared.fault.WireFault.TheVariants.{Link as OfLink};
    ghost use Rattle.lxp_remote.specs.Opened.{AreUnfilled, IsRefusedFor};
    ghost use Rattle.lxp_remote.specs.Remotes.{remoting, view_of, last_in, Tells};

    /// The sources after a link, which is asked how many they are, and for the root of each. A refusal names its cause, and the link comes
    /// back. No fill is asked.
    pub fn open(alloc: Global, mut link: L) -> Result<Remote<L>, RemoteRefused<L>>
        ensures came { MatchResult result (λ r. L.came_from link r.link) (λ e. L.came_from link e.link) }
        // Over a link that tells its sources, these are they.
        ensures unasked { let old = L.view link in old.told ≡ true → MatchResult result
            (λ r. (L.view r.link).peer.fills ≡ old.peer.fills) (λ e. (L.view e.link).peer.fills ≡ old.peer.fills) }
        ensures tells { IfOk result (λ r. (L.view link).told ≡ true
            → Tells (view_of (remoting (L.view r.link) r.peers.items r.fills)) (L.view link).peer) }
        // No fill was asked, no hole is known but the roots, and no source failed.
        ensures fills { IfOk result (λ r. r.fills ≡ 0) }
        ensures unfilled { IfOk result (λ r. AreUnfilled r.peers.items) }
        // The causes of a refusal.
        ensures cause { IfErr result (λ e. (fault : Cause) → e.fault ≡ Wire fault → IsRefusedFor (L.view link) (L.view e.link) fault) }
        ensures told { IfErr result (λ e. (fault : Cause) → e.fault ≡ Wire fault → (L.view link).told ≡ true → fault ≡ OfLink) }
    {
        match ask_peers(alloc, &mut link) {
            Ok(peers) => Ok(Remote {
                link,
                peers,
                fills: 0,
            }),
            Err(fault) => Err(RemoteRefused { fault, link }),
        }
    }

    /// Why a source failed last; `None` exactly where it never failed.
    pub fn last(&self, s: u32) -> Option<WireFault>
        requires { s < (view_of (remoting (L.view self.now.link) self.now.peers.items self.now.fills)).count }
        ensures { result ≡ last_in (slice_get self.now.peers.items s) }
    {
        self.peers[s as usize].last
    }

    /// The link, as it is now.
    pub fn into_link(self) -> L
        ensures { result ≡ self.link }
    {
        self.link
    }
}

impl<L: Link> Sources for Remote<L> {
    ghost use Rattle.std.specs.Prelude.{◌≡◌, ◌≢◌, ◌<◌, ℕ, slice_get, IfOk, IsErrOf};
    ghost use Rattle.lxp_core.specs.Fill.{Answers, IsCounted, IsRefused, source_of};
    ghost use Rattle.lxp_core.specs.Plain.{plain};
    ghost use Rattle.lxp_remote.specs.Filled.{IsFilled, NamesCause};
    ghost use Rattle.lxp_remote.specs.Remotes.{remoting, view_of, CameFrom};
    ghost use Rattle.lxp_remote.specs.RemoteLaws.{came_same, came_after, root_is_known};

    ghost view = { λ r. view_of (remoting (L.view r.link) r.peers.items r.fills) };

    ghost came_from = { λ old new. L.came_from old.link new.link
        × CameFrom (remoting (L.view old.link) old.peers.items old.fills) (remoting (L.view new.link) new.peers.items new.fills) };

    fn count(&self) -> u32 {
        self.peers.len() as u32
    }

    fn get_root(&self, s: u32) -> HoleId {
        self.peers[s as usize].root.id
    }

    fn fill(&mut self, alloc: Global, s: u32, hole: HoleId) -> Result<Vec<OpenTree>, SourceFault>
        requires { s < (view_of (remoting (L.view self.old.link) self.old.peers.items self.old.fills)).count }
        ensures came { L.came_from self.old.link self.new.link
            × CameFrom (remoting (L.view self.old.link) self.old.peers.items self.old.fills)
            (remoting (L.view self.new.link) self.new.peers.items self.new.fills) }
        ensures filled { IsFilled (L.view self.old.link) (L.view self.new.link)
            (slice_get self.old.peers.items s) (slice_get self.new.peers.items s) s hole result }
        ensures answers { let old = view_of (remoting (L.view self.old.link) self.old.peers.items self.old.fills) in
            let new = view_of (remoting (L.view self.new.link) self.new.peers.items self.new.fills) in
            IfOk result (λ list. Answers (source_of old s) (source_of new s) hole (plain list.items)) }
        ensures refused { let old = view_of (remoting (L.view self.old.link) self.old.peers.items self.old.fills) in
            let new = view_of (remoting (L.view self.new.link) self.new.peers.items self.new.fills) in
            IsRefused _ (source_of old s) (source_of new s) hole result }
        ensures counted { IsCounted _ self.old.fills self.new.fills result }
        // Why the source failed, and that no other was filled.
        ensures named { let old = remoting (L.view self.old.link) self.old.peers.items self.old.fills in
            let new = remoting (L.view self.new.link) self.new.peers.items self.new.fills in
            IsErrOf result SourceFault.Failed → NamesCause old new s hole }
        ensures others { (r : ℕ) → r ≢ s → slice_get self.new.peers.items r ≡ slice_get self.old.peers.items r }
    {
        let answer = fill_peer(alloc, &mut self.link, &mut self.peers, s, hole);
        self.fills = self.fills.saturating_add(1);
        answer
    }

    ghost same = { λ a. (L.same a.link, came_same (remoting (L.view a.link) a.peers.items a.fills)) };

    ghost after = { λ a b c x y. (
      L.after a.link b.link c.link x.0 y.0,
      came_after (remoting (L.view a.link) a.peers.items a.fills) (remoting (L.view b.link) b.peers.items b.fills)
          (remoting (L.view c.link) c.peers.items c.fills) (L.keeps a.link b.link x.0) (L.keeps b.link c.link y.0) x.1 y.1,
    ) };

    ghost keeps = { λ a b x. x.1.keeps };

    ghost root_known = { λ a s h. root_is_known (remoting (L.view a.link) a.peers.items a.fills) s h };
}

impl<L: Link> Weighed for Remote<L> {
    ghost use Rattle.std.specs.Prelude.{◌≡◌, ◌<◌, true, false, MatchOption, refl};
    ghost use Rattle.lxp_remote.specs.Remotes.{remoting, view_of};

    fn weight(&self, s: u32, hole: HoleId) -> Option<u128> {
        self.peers[s as usize].weight(hole)
    }

    ghost all_small = { λ a s h. refl };
}
