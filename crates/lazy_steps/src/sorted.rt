// The sorted list of an orderBy.
ghost use Rattle.std.specs.Prelude.{◌≡◌, IfOk, IfErr};
ghost use Rattle.lazy_steps.specs.Orders.{IsSortedAt};
ghost use Rattle.lxp_core.specs.declared.fault.WalkFault.TheVariants.{OutOfMemory};

use lazy_binding::{Position, put};
use lxp_core::WalkFault;
use std::alloc::Global;
use std::rc::Rc;

/// The position at an index of a sorted list, or that there is none.
#[inline(never)]
pub(crate) fn sorted_at(
    alloc: Global,
    list: &Rc<Vec<Rc<Position>>>,
    index: usize,
) -> Result<Option<Rc<Position>>, WalkFault>
    ensures err { IfErr result (λ e. e ≡ OutOfMemory) }
    ensures ok { IfOk result (IsSortedAt list.now.value index) }
{
    if index < list.len() {
        let all = list.clone()?;
        Ok(Some(put(alloc, Position::Sorted(all, index))?))
    } else {
        Ok(None)
    }
}
