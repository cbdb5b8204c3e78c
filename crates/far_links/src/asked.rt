// The far sources that were asked: how often and why each failed.
ghost use Rattle.std.specs.Prelude.{◌≡◌, None};

use crate::fault::FarFault;
use far_keep::FarSource;
use std::alloc::{AllocError, Global};

/// A far source that was asked: how often it failed, and why it did last.
#[derive(Drop)]
pub struct Asked {
    pub far: FarSource,
    pub faults: u64,
    pub last: Option<FarFault>,
    ghost never: { faults ≡ 0 → last ≡ None },
    ghost ever: { last ≡ None → faults ≡ 0 },
}

impl Asked {
    ghost use Rattle.std.specs.Prelude.{◌≡◌, ◌≤◌, Some, None, IfOk};
    ghost use Rattle.mix_base.specs.Counts.{HasRisen};

    /// A far source that never failed.
    pub fn new(alloc: Global, far: &FarSource) -> Result<Asked, AllocError>
        ensures far { IfOk result (λ a. a.far ≡ far.now) }
        ensures faults { IfOk result (λ a. a.faults ≡ 0) }
        ensures last { IfOk result (λ a. a.last ≡ None) }
    {
        Ok(Asked {
            far: far.copy(alloc)?,
            faults: 0,
            last: None,
        })
    }

    /// Counts a fault, which is the last one from then on.
    pub fn count(&mut self, fault: FarFault)
        ensures far { self.new.far ≡ self.old.far }
        ensures faults { HasRisen self.old.faults self.new.faults }
        ensures rises { self.old.faults ≤ self.new.faults }
        ensures last { self.new.last ≡ Some fault }
    {
        self.last = Some(fault);
        self.faults = self.faults.saturating_add(1);
    }
}
