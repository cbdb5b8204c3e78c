// Taking a list that came.
ghost use Rattle.std.specs.Prelude.{◌≡◌, ℕ, List, IfOk, IfErr, OnOk, OnErr};
ghost use Rattle.lxp_core.specs.Plain.{plain as open_plain};
ghost use Rattle.wire_text.specs.declared.request.Request.{Request};
ghost use Rattle.wire_text.specs.Plain.{plain};
ghost use Rattle.wire_text.specs.Replies.{SpellsShallow};
ghost use Rattle.wire_text.specs.Reply.{list as listed};
ghost use Rattle.wire_text.specs.Wired.{holes_of, without_weights};
ghost use Rattle.lxp_remote.specs.Causes.{asking};
ghost use Rattle.lxp_remote.specs.Faults.{ShowsFault};
ghost use Rattle.lxp_remote.specs.Known.{IsChanged};
ghost use Rattle.lxp_remote.specs.Learned.{Learns, weights};
ghost use Rattle.lxp_remote.specs.Rules.{KeepsRules};

use crate::fault::{Broken, RemoteFault, WireFault};
use crate::known::KnownHoles;
use crate::learning::{Unlearned, learn};
use crate::opening::open_list;
use crate::rules::broken_rule;
use lxp_core::OpenTree;
use std::alloc::Global;
use wire_text::{Hole, WireTree};

/// The list that came for a hole of this weight, without the weights of its holes, which are learned. A list that breaks a rule names the
/// first; after an error nothing was learned.
pub fn take_list(
    alloc: Global,
    root: &Hole,
    known: &mut KnownHoles,
    trees: Vec<WireTree>,
    weight: u128,
) -> Result<Vec<OpenTree>, RemoteFault>
    ensures list { IfOk result (λ list. open_plain list.items ≡ without_weights (plain trees.items)) }
    ensures learned { OnOk result (Learns (weights root.now known.old) (weights root.now known.new) (holes_of (plain trees.items))) }
    ensures rules { OnOk result (KeepsRules (plain trees.items) weight) }
    ensures cause { IfErr result (λ e. (r : Request) (text : List ℕ) → SpellsShallow text (listed (plain trees.items))
        → ShowsFault (asking r weight (weights root.now known.old)) text e) }
    ensures sound { let o = plain trees.items in KeepsRules o weight → ¬ IsChanged (weights root.now known.old) (holes_of o)
        → IfErr result (λ e. e ≡ RemoteFault.OutOfMemory) }
    ensures kept { OnErr result (known.new ≡ known.old) }
{
    if let Some(broken) = broken_rule(&trees, weight) {
        return Err(RemoteFault::Wire(WireFault::BadFragment(broken)));
    }
    let count = known.len();
    match learn(root, known, &trees) {
        Ok(()) => {}
        Err(Unlearned::Changed) => return Err(RemoteFault::Wire(WireFault::BadFragment(
            Broken::WeightChanged,
        ))),
        Err(Unlearned::OutOfMemory) => return Err(RemoteFault::OutOfMemory),
    }
    match open_list(alloc, trees) {
        Ok(list) => Ok(list),
        Err(_) => {
            known.truncate(count);
            Err(RemoteFault::OutOfMemory)
        }
    }
}
