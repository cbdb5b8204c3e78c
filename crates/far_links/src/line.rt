// The link over two files, and the sources that are asked over it.
ghost use Rattle.std.specs.Prelude.{◌≡◌, ◌⊎◌, ◌<◌, ◌≤◌, ◌^◌, false, true, IfOk, IfErr, IsErrOf, MatchOption, OnOk};
ghost use Rattle.lxp_core.specs.Open.{AllHoles, IsProgress, weight_of};
ghost use Rattle.lxp_core.specs.Plain.{plain};
ghost use Rattle.lxp_core.specs.Small.{IsSmall};
ghost use Rattle.lxp_remote.specs.declared.fault.RemoteFault.TheVariants.{Wire as OnWire};
ghost use Rattle.lxp_remote.specs.declared.fault.WireFault.{WireFault as LinkCause};
ghost use Rattle.lxp_remote.specs.Opened.{AreUnfilled, IsRefusedFor};
ghost use Rattle.lxp_remote.specs.Remotes.{Remoting};
ghost use Rattle.lxp_wire.specs.Links.{LinkView};
ghost use Rattle.far_keep.specs.Names.{is_far_root};
ghost use Rattle.far_keep.specs.Views.{far_root};
ghost use Rattle.far_links.specs.declared.fault.FarFault.{FarFault as Cause};
ghost use Rattle.far_links.specs.declared.fault.FarFault.TheVariants.{Unopened};
ghost use Rattle.far_links.specs.declared.fault.Refusal.TheVariants.{Fault};
ghost use Rattle.far_links.specs.Failing.{HasFailed, HasRefused, HasSources};
ghost use Rattle.far_links.specs.Holes.{is_below};
ghost use Rattle.far_links.specs.Standing.{KeepsLine, dialled, knows, knows_in, opened, weight, weight_in};

use crate::dial::Dial;
use crate::fault::{FarFault, Refusal};
use crate::filling::fill_remote;
use crate::holes::is_far_root;
use far_keep::FarSource;
use lxp_core::{HoleId, OpenTree, Sources, Weighed};
use lxp_remote::{Remote, RemoteFault};
use lxp_wire::Link;
use mix_tree::{Label, same_label};
use std::alloc::{AllocError, Global};
use std::mem;

/// How far a line has come.
#[derive(Drop)]
pub enum LineState<L: Link> {
    /// It has no link yet.
    Undialled,
    /// It has a link, over which the sources are not told yet.
    Dialled(L),
    /// The sources over the link are told.
    Opened(Remote<L>),
}

/// The link over two files, and the sources that are asked over it.
#[derive(Drop)]
pub struct Line<L: Link> {
    replies: Label,
    requests: Label,
    state: LineState<L>,
}

// The refusal of a fill before which the sources were not told.
fn refuse(fault: RemoteFault) -> Refusal
    ensures wire { (cause : LinkCause) → fault ≡ OnWire cause → result ≡ Fault (Unopened cause) }
    ensures memory { fault ≡ RemoteFault.OutOfMemory → result ≡ Refusal.OutOfMemory }
{
    match fault {
        RemoteFault::Wire(fault) => Refusal::Fault(FarFault::Unopened(fault)),
        RemoteFault::OutOfMemory => Refusal::OutOfMemory,
    }
}

impl<L: Link + Drop> Line<L> {
    ghost use Rattle.far_links.specs.Lines.{joins, standing};

    /// A line over the two files of a far source, which has no link yet.
    pub fn new(alloc: Global, far: &FarSource) -> Result<Line<L>, AllocError>
        ensures joins { IfOk result (λ line. (line.replies ≡ far.now.replies) × (line.requests ≡ far.now.requests)) }
        ensures state { IfOk result (λ line. line.state ≡ LineState.Undialled) }
    {
        Ok(Line {
            replies: far.replies.copy(alloc)?,
            requests: far.requests.copy(alloc)?,
            state: LineState::Undialled,
        })
    }

    /// Whether the line is over the two files of a far source.
    pub fn joins(&self, far: &FarSource) -> bool
        ensures { result ≡ joins far.now self.now }
    {
        same_label(&self.replies, &far.replies) && same_label(&self.requests, &far.requests)
    }

    /// The weight of a hole that the source of a number is known to have; `None` where it isn't.
    pub fn weight(&self, number: u32, hole: HoleId) -> Option<u128>
        ensures { let v = standing L.view self.now.state in MatchOption result (knows_in v number hole ≡ false)
            (λ weight. (knows_in v number hole ≡ true) × (weight ≡ weight_in v number hole)) }
    {
        let LineState::Opened(remote) = &self.state else {
            return None;
        };
        if number >= remote.count() {
            return None;
        }
        remote.weight(number, hole)
    }

    // Asks a link how many sources it has, and for the root of each, and keeps it.
    fn keep_link(&mut self, alloc: Global, link: L) -> Result<(), RemoteFault>
        ensures told { OnOk result ((r : Remoting) × AreUnfilled r.peers × (standing L.view self.new.state ≡ opened r)) }
        ensures refused { IfErr result (λ e. (w : LinkView) × (standing L.view self.new.state ≡ dialled w)
            × ((fault : LinkCause) → e ≡ OnWire fault → IsRefusedFor (L.view link) w fault)) }
        ensures files { (self.new.replies ≡ self.old.replies) × (self.new.requests ≡ self.old.requests) }
    {
        match Remote::open(alloc, link) {
            Ok(remote) => {
                self.state = LineState::Opened(remote);
                Ok(())
            }
            Err(refused) => {
                self.state = LineState::Dialled(refused.link);
                Err(refused.fault)
            }
        }
    }

    // Has the sources told: the link is dialled where there is none, and asked where they are not told. After an error the link is kept
    // for the next try.
    fn open<D: Dial<L>>(&mut self, alloc: Global, dial: &D) -> Result<(), RemoteFault>
        ensures keeps { KeepsLine (standing L.view self.old.state) (standing L.view self.new.state) }
        ensures told { OnOk result ((r : Remoting) × HasSources (standing L.view self.old.state) r
            × (standing L.view self.new.state ≡ opened r)) }
        ensures refused { IfErr result (λ e. (fault : LinkCause) → e ≡ OnWire fault
            → HasRefused (standing L.view self.old.state) (standing L.view self.new.state) (Unopened fault)) }
        ensures files { (self.new.replies ≡ self.old.replies) × (self.new.requests ≡ self.old.requests) }
    {
        let link = match mem::replace(&mut self.state, LineState::Undialled) {
            LineState::Opened(remote) => {
                self.state = LineState::Opened(remote);
                return Ok(());
            }
            LineState::Dialled(link) => link,
            LineState::Undialled => match dial.dial(alloc, &self.replies, &self.requests) {
                Ok(link) => link,
                Err(_) => return Err(RemoteFault::OutOfMemory),
            },
        };
        self.keep_link(alloc, link)
    }

    // The list of the whole document of the source of a number.
    fn fill_root<D: Dial<L>>(
        &mut self,
        alloc: Global,
        dial: &D,
        number: u32,
    ) -> Result<Vec<OpenTree>, Refusal>
        ensures keeps { KeepsLine (standing L.view self.old.state) (standing L.view self.new.state) }
        ensures progress { IfOk result (λ list. IsProgress (plain list.items)) }
        ensures below { IfOk result (λ list. AllHoles is_below (plain list.items)) }
        ensures known { let new = standing L.view self.new.state in
            IfOk result (λ list. AllHoles (knows_in new number) (plain list.items)) }
        ensures lighter { let new = standing L.view self.new.state in
            IfOk result (λ list. weight_of (weight_in new number) (plain list.items) < 2 ^ 128) }
        ensures small { IfOk result (λ list. IsSmall (plain list.items)) }
        ensures failed { IfErr result (λ e. (cause : Cause) → e ≡ Fault cause
            → HasFailed (standing L.view self.old.state) (standing L.view self.new.state) number far_root cause) }
        ensures known_root { ¬ IsErrOf result Refusal.UnknownHole }
        ensures files { (self.new.replies ≡ self.old.replies) × (self.new.requests ≡ self.old.requests) }
    {
        if let Err(fault) = self.open(alloc, dial) {
            return Err(refuse(fault));
        }
        let LineState::Opened(remote) = &mut self.state else {
            unreachable!()
        };
        if number >= remote.count() {
            return Err(Refusal::Fault(FarFault::NoSource));
        }
        let root = remote.get_root(number);
        let weight = remote.weight(number, root);
        prove!(weight.is_some());
        fill_remote(alloc, remote, number, root)
    }

    // The list of a hole that came before in a list of the source of a number.
    fn fill_known(
        &mut self,
        alloc: Global,
        number: u32,
        hole: HoleId,
    ) -> Result<Vec<OpenTree>, Refusal>
        requires { is_far_root hole ≡ false }
        ensures keeps { KeepsLine (standing L.view self.old.state) (standing L.view self.new.state) }
        ensures progress { IfOk result (λ list. IsProgress (plain list.items)) }
        ensures below { IfOk result (λ list. AllHoles is_below (plain list.items)) }
        ensures known { let new = standing L.view self.new.state in
            IfOk result (λ list. AllHoles (knows_in new number) (plain list.items)) }
        ensures lighter { let old = standing L.view self.old.state in let new = standing L.view self.new.state in
            IfOk result (λ list. weight_of (weight_in new number) (plain list.items) ≤ weight_in old number hole) }
        ensures small { IfOk result (λ list. IsSmall (plain list.items)) }
        ensures failed { IfErr result (λ e. (cause : Cause) → e ≡ Fault cause
            → HasFailed (standing L.view self.old.state) (standing L.view self.new.state) number hole cause) }
        ensures unknown { let old = standing L.view self.old.state in
            IsErrOf result Refusal.UnknownHole → knows_in old number hole ≡ false }
        ensures only_unknown { let old = standing L.view self.old.state in
            knows_in old number hole ≡ false → IsErrOf result Refusal.UnknownHole ⊎ IsErrOf result Refusal.OutOfMemory }
        ensures files { (self.new.replies ≡ self.old.replies) × (self.new.requests ≡ self.old.requests) }
    {
        let LineState::Opened(remote) = &mut self.state else {
            return Err(Refusal::UnknownHole);
        };
        if number >= remote.count() {
            return Err(Refusal::UnknownHole);
        }
        fill_remote(alloc, remote, number, hole)
    }

    /// The list of a hole of the source of a number. That of the whole document is always known; another is where it came before.
    pub fn fill<D: Dial<L>>(
        &mut self,
        alloc: Global,
        dial: &D,
        number: u32,
        hole: HoleId,
    ) -> Result<Vec<OpenTree>, Refusal>
        ensures keeps { KeepsLine (standing L.view self.old.state) (standing L.view self.new.state) }
        // What the answer promises.
        ensures progress { IfOk result (λ list. IsProgress (plain list.items)) }
        ensures known { let new = standing L.view self.new.state in
            IfOk result (λ list. AllHoles (knows new number) (plain list.items)) }
        ensures lighter { let old = standing L.view self.old.state in let new = standing L.view self.new.state in
            IfOk result (λ list. weight_of (weight new number) (plain list.items) ≤ weight old number hole) }
        ensures small { IfOk result (λ list. IsSmall (plain list.items)) }
        // For which causes there is none.
        ensures failed { IfErr result (λ e. (cause : Cause) → e ≡ Fault cause
            → HasFailed (standing L.view self.old.state) (standing L.view self.new.state) number hole cause) }
        ensures unknown { let old = standing L.view self.old.state in
            IsErrOf result Refusal.UnknownHole → knows old number hole ≡ false }
        ensures only_unknown { let old = standing L.view self.old.state in
            knows old number hole ≡ false → IsErrOf result Refusal.UnknownHole ⊎ IsErrOf result Refusal.OutOfMemory }
        ensures files { (self.new.replies ≡ self.old.replies) × (self.new.requests ≡ self.old.requests) }
    {
        if is_far_root(hole) {
            self.fill_root(alloc, dial, number)
        } else {
            self.fill_known(alloc, number, hole)
        }
    }
}
