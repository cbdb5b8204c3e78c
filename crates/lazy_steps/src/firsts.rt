// Whether the key of a binding is new among those that an operator has seen.
ghost use Rattle.std.specs.Prelude.{◌≡◌, ◌<◌, ◌≤◌, ◌⊎◌, ◌++◌, ◌∷◌, [], true, false, not, IfOk, IfErr, length, slice_index_or, take};
ghost use Rattle.lazy_binding.specs.Keys.{was_seen};
ghost use Rattle.lazy_binding.specs.Growth.{IsPushed};
ghost use Rattle.lazy_steps.specs.Firsts.{IsKeyAfter};
ghost use Rattle.lazy_steps.specs.Steps.{GrowsAt};
ghost use Rattle.lxp_core.specs.declared.fault.WalkFault.TheVariants.{OutOfMemory};

use lazy_binding::growth::is_first;
use lazy_binding::{KeyTuple, SeenKeys};
use lxp_core::WalkFault;

/// How many keys an operator has seen up to a key that is new after the first few; where it is the newest of all, it is noted. `None`: it was seen.
pub(crate) fn note_key(
    seen: &mut Vec<SeenKeys>,
    op: usize,
    key: KeyTuple,
    count: usize,
) -> Result<Option<usize>, WalkFault>
    requires op { op < length seen.old.items }
    requires count { count ≤ length (slice_index_or seen.old.items op []) }
    ensures grows { GrowsAt seen.old.items seen.new.items op key.items }
    ensures err { IfErr result (λ e. e ≡ OutOfMemory) }
    ensures answer { let old = slice_index_or seen.old.items op [] in
        IfOk result (IsKeyAfter old (slice_index_or seen.new.items op []) key.items count) }
    ensures pushed { IsPushed (slice_index_or seen.old.items op []) (slice_index_or seen.new.items op []) key.items count }
{
    let list = &mut seen[op];
    if is_first(list, key, count)? {
        let within = count < list.len();
        prove!(within);
        Ok(Some(count + 1))
    } else {
        Ok(None)
    }
}
