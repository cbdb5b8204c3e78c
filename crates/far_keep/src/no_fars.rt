// No sources of other machines.
use crate::far_source::is_far_root;
use crate::{FarSource, Fars};
use lxp_core::{HoleId, OpenTree, SourceFault};
use std::alloc::Global;

/// No sources of other machines: none tells its document, and each fill of the hole of a whole document is a fault.
#[derive(Debug, Drop)]
pub struct NoFars {
    faults: u64,
}

impl NoFars {
    ghost use Rattle.std.specs.Prelude.{◌≡◌};
    ghost use Rattle.far_keep.specs.Untold.{no_fars_view, untold_fars};

    /// No sources of other machines, of which no fill was asked.
    pub fn new() -> NoFars
        ensures { no_fars_view result ≡ untold_fars 0 }
    {
        NoFars { faults: 0 }
    }
}

impl Fars for NoFars {
    ghost use Rattle.far_keep.specs.Untold.{no_fars_view, root_is_known};

    ghost view = { no_fars_view };

    fn fill(
        &mut self,
        _: Global,
        _: &FarSource,
        hole: HoleId,
    ) -> Result<Vec<OpenTree>, SourceFault> {
        if !is_far_root(hole) {
            return Err(SourceFault::UnknownHole);
        }
        self.faults = self.faults.saturating_add(1);
        Err(SourceFault::Failed)
    }

    fn weight(&self, _: &FarSource, hole: HoleId) -> Option<u128> {
        if is_far_root(hole) { Some(0) } else { None }
    }

    ghost root_known = { root_is_known };
}
