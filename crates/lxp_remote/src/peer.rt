// What is kept of one source after a link.
ghost use Rattle.std.specs.Prelude.{◌≡◌, ◌⊎◌, ◌+◌, ◌≤◌, ℕ, true, Some, None, IfOk, IfErr, IsErrOf, OnErr};
ghost use Rattle.mix_base.specs.Counts.{HasRisen};
ghost use Rattle.lxp_core.specs.Plain.{plain as open_plain};
ghost use Rattle.wire_text.specs.declared.request.Request.TheVariants.{Fill};
ghost use Rattle.lxp_remote.specs.declared.fault.RemoteFault.TheVariants.{Wire};
ghost use Rattle.lxp_remote.specs.declared.fault.WireFault.{WireFault as Cause};
ghost use Rattle.lxp_remote.specs.declared.fault.WireFault.TheVariants.{Link as OfLink, PeerFailed};
ghost use Rattle.lxp_remote.specs.Causes.{HasCome, asking};
ghost use Rattle.lxp_remote.specs.Learned.{weights};
ghost use Rattle.lxp_remote.specs.Opened.{IsUnfilled};
ghost use Rattle.lxp_remote.specs.Taken.{IsTaken, AreKnownThere, HasFailed};

use crate::asking::ask_list;
use crate::fault::{RemoteFault, WireFault};
use crate::known::KnownHoles;
use crate::learning::known_weight;
use crate::taking::take_list;
use lxp_core::{HoleId, OpenTree, SourceFault};
use lxp_wire::Link;
use std::alloc::Global;
use wire_text::Hole;

/// What is kept of one source after a link: its root, the other holes that came, and how often and why it failed.
#[derive(Drop)]
pub struct Peer {
    pub root: Hole,
    pub known: KnownHoles,
    pub faults: u64,
    pub last: Option<WireFault>,
}

impl Peer {
    /// A source of which nothing is known but its root.
    pub fn new(alloc: Global, root: Hole) -> Peer
        ensures root { result.root ≡ root }
        ensures unfilled { IsUnfilled result }
    {
        Peer {
            root,
            known: KnownHoles::new(alloc),
            faults: 0,
            last: None,
        }
    }

    /// The weight of a hole; `None` where it isn't known.
    pub fn weight(&self, hole: HoleId) -> Option<u128>
        ensures { result ≡ weights self.now.root self.now.known hole }
    {
        known_weight(&self.root, &self.known, hole)
    }

    /// Asks the link for the list of a hole of this weight, and learns its holes. After an error all is as before but the link. Where the
    /// link tells its sources, and the holes are known by their weights there, only the link or the source fails.
    pub fn take<L: Link>(
        &mut self,
        alloc: Global,
        link: &mut L,
        source: u32,
        hole: Hole,
    ) -> Result<Vec<OpenTree>, RemoteFault>
        ensures came { L.came_from link.old link.new }
        ensures fills { let old = L.view link.old in old.told ≡ true → (L.view link.new).peer.fills ≤ old.peer.fills + 1 }
        ensures taken { let known = weights self.old.root self.old.known in let known' = weights self.new.root self.new.known in IfOk result
            (λ list. IsTaken source hole.id hole.weight (L.view link.old) (L.view link.new) known known' (open_plain list.items)) }
        ensures cause { let asked = asking (Fill source hole.id) hole.weight (weights self.old.root self.old.known) in
            IfErr result (λ e. (fault : Cause) → e ≡ Wire fault → HasCome asked (L.view link.old) (L.view link.new) fault) }
        ensures told { let old = L.view link.old in let known = weights self.old.root self.old.known in
            IfErr result (λ e. (fault : Cause) → e ≡ Wire fault → old.told ≡ true → AreKnownThere old source hole.id hole.weight known
            → (fault ≡ OfLink) ⊎ ((fault ≡ PeerFailed) × HasRisen (old.peer.faults source) ((L.view link.new).peer.faults source))) }
        ensures root { self.new.root ≡ self.old.root }
        ensures faults { (self.new.faults ≡ self.old.faults) × (self.new.last ≡ self.old.last) }
        ensures kept { OnErr result (self.new ≡ self.old) }
    {
        let trees = match ask_list(alloc, link, source, hole.id) {
            Ok(trees) => trees,
            Err(fault) => return Err(fault),
        };
        take_list(alloc, &self.root, &mut self.known, trees, hole.weight)
    }

    /// The list of a hole of the source, of this number after the link, without weights. `UnknownHole` comes exactly where the hole isn't known, and then
    /// the link is not asked. `Failed` counts a fault, and its cause is the last one from then on. After an error no hole is known that wasn't.
    pub fn fill<L: Link>(
        &mut self,
        alloc: Global,
        link: &mut L,
        source: u32,
        hole: HoleId,
    ) -> Result<Vec<OpenTree>, SourceFault>
        ensures came { L.came_from link.old link.new }
        ensures fills { let old = L.view link.old in old.told ≡ true → (L.view link.new).peer.fills ≤ old.peer.fills + 1 }
        ensures taken { let known = weights self.old.root self.old.known in let known' = weights self.new.root self.new.known in IfOk result
            (λ list. (n : ℕ) × (known hole ≡ Some n)
            × IsTaken source hole n (L.view link.old) (L.view link.new) known known' (open_plain list.items)) }
        ensures failed { let known = weights self.old.root self.old.known in IsErrOf result SourceFault.Failed
            → HasFailed source hole (L.view link.old) (L.view link.new) known self.new.last }
        ensures counted { IsErrOf result SourceFault.Failed → HasRisen self.old.faults self.new.faults }
        ensures unknown { IsErrOf result SourceFault.UnknownHole → weights self.old.root self.old.known hole ≡ None }
        ensures only_unknown { weights self.old.root self.old.known hole ≡ None → IsErrOf result SourceFault.UnknownHole }
        ensures root { self.new.root ≡ self.old.root }
        ensures faults { ¬ IsErrOf result SourceFault.Failed → (self.new.faults ≡ self.old.faults) × (self.new.last ≡ self.old.last) }
        ensures rises { (self.old.faults ≤ self.new.faults) × (self.new.faults ≤ self.old.faults + 1) }
        ensures kept { OnErr result (self.new.known ≡ self.old.known) }
    {
        let Some(weight) = self.weight(hole) else {
            return Err(SourceFault::UnknownHole);
        };
        match self.take(alloc, link, source, Hole { id: hole, weight }) {
            Ok(list) => Ok(list),
            Err(RemoteFault::OutOfMemory) => Err(SourceFault::OutOfMemory),
            Err(RemoteFault::Wire(fault)) => {
                self.faults = self.faults.saturating_add(1);
                self.last = Some(fault);
                Err(SourceFault::Failed)
            }
        }
    }
}
