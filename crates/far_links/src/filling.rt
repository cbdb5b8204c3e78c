// Filling one of the sources over a link that is opened.
ghost use Rattle.std.specs.Prelude.{◌≡◌, ◌<◌, ◌≤◌, ◌⊎◌, false, IfOk, IfErr, IsErrOf};
ghost use Rattle.lxp_core.specs.Open.{AllHoles, IsProgress, weight_of};
ghost use Rattle.lxp_core.specs.Plain.{plain};
ghost use Rattle.lxp_core.specs.Small.{IsSmall};
ghost use Rattle.lxp_core.specs.View.{Keeps};
ghost use Rattle.lxp_remote.specs.Remotes.{remoting, view_of};
ghost use Rattle.far_links.specs.declared.fault.FarFault.{FarFault as Cause};
ghost use Rattle.far_links.specs.declared.fault.Refusal.TheVariants.{Fault};
ghost use Rattle.far_links.specs.Failing.{FailsOpened};
ghost use Rattle.far_links.specs.Holes.{is_below};

use crate::fault::{FarFault, Refusal};
use crate::holes::list_names_root;
use lxp_core::{HoleId, OpenTree, SourceFault, Sources};
use lxp_remote::Remote;
use lxp_wire::Link;
use std::alloc::Global;

/// The list of a hole of one of the sources, none of whose holes has the words of a whole document. `UnknownHole` comes exactly where the
/// source isn't known to have the hole. After each error what was known is known.
pub fn fill_remote<L: Link>(
    alloc: Global,
    remote: &mut Remote<L>,
    number: u32,
    hole: HoleId,
) -> Result<Vec<OpenTree>, Refusal>
    requires { number < (view_of (remoting (L.view remote.old.link) remote.old.peers.items remote.old.fills)).count }
    ensures keeps { let old = remoting (L.view remote.old.link) remote.old.peers.items remote.old.fills in
        let new = remoting (L.view remote.new.link) remote.new.peers.items remote.new.fills in Keeps (view_of old) (view_of new) }
    // What the answer promises.
    ensures progress { IfOk result (λ list. IsProgress (plain list.items)) }
    ensures below { IfOk result (λ list. AllHoles is_below (plain list.items)) }
    ensures known { let new = view_of (remoting (L.view remote.new.link) remote.new.peers.items remote.new.fills) in
        IfOk result (λ list. AllHoles (new.knows number) (plain list.items)) }
    ensures lighter { let old = view_of (remoting (L.view remote.old.link) remote.old.peers.items remote.old.fills) in
        let new = view_of (remoting (L.view remote.new.link) remote.new.peers.items remote.new.fills) in
        IfOk result (λ list. weight_of (new.weight number) (plain list.items) ≤ old.weight number hole) }
    ensures small { IfOk result (λ list. IsSmall (plain list.items)) }
    // For which causes there is none.
    ensures failed { let old = remoting (L.view remote.old.link) remote.old.peers.items remote.old.fills in
        let new = remoting (L.view remote.new.link) remote.new.peers.items remote.new.fills in
        IfErr result (λ e. (cause : Cause) → e ≡ Fault cause → FailsOpened old new number hole cause) }
    ensures unknown { let old = view_of (remoting (L.view remote.old.link) remote.old.peers.items remote.old.fills) in
        IsErrOf result Refusal.UnknownHole → old.knows number hole ≡ false }
    ensures only_unknown { let old = view_of (remoting (L.view remote.old.link) remote.old.peers.items remote.old.fills) in
        old.knows number hole ≡ false → IsErrOf result Refusal.UnknownHole ⊎ IsErrOf result Refusal.OutOfMemory }
{
    let list = match remote.fill(alloc, number, hole) {
        Ok(list) => list,
        Err(SourceFault::UnknownHole) => return Err(Refusal::UnknownHole),
        Err(SourceFault::OutOfMemory) => return Err(Refusal::OutOfMemory),
        Err(SourceFault::Failed) => match remote.last(number) {
            Some(fault) => return Err(Refusal::Fault(FarFault::Wire(fault))),
            None => unreachable!(),
        },
    };
    if list_names_root(&list) {
        return Err(Refusal::Fault(FarFault::RootNamed));
    }
    Ok(list)
}
