// What a far source answers.
ghost use Rattle.std.specs.Prelude.{◌≡◌, true, false, IfOk, MatchOption};
ghost use Rattle.lxp_core.specs.Fill.{Answers, IsRefused};
ghost use Rattle.lxp_core.specs.Plain.{plain};
ghost use Rattle.far_keep.specs.declared.far_source.FarSource.{FarSource};
ghost use Rattle.far_keep.specs.Views.{FarsView, KeepsFars, far_document, far_root};

use crate::FarSource;
use lxp_core::{HoleId, OpenTree, SourceFault};
use std::alloc::Global;

/// Sources of other machines, whose documents are given piece by piece. No call changes these.
pub trait Fars {
    /// What a state of the far sources means.
    ghost view: { Self → FarsView };

    /// The trees that a hole of a far source stands for, with holes again. `Failed`: the source failed, and its count of faults rose.
    /// `UnknownHole`: the source doesn't know the hole. After any of them every hole that was known is known and stands for the same
    /// trees.
    fn fill(
        &mut self,
        alloc: Global,
        far: &FarSource,
        hole: HoleId,
    ) -> Result<Vec<OpenTree>, SourceFault>
        ensures keeps { KeepsFars (view self.old) (view self.new) }
        ensures answers { let before = far_document (view self.old) far.now in let after = far_document (view self.new) far.now in
            IfOk result (λ list. Answers before after hole (plain list.items)) }
        ensures refused { IsRefused _ (far_document (view self.old) far.now) (far_document (view self.new) far.now) hole result };

    /// The weight of a hole of a far source; `None` exactly where the source doesn't know the hole.
    fn weight(&self, far: &FarSource, hole: HoleId) -> Option<u128>
        ensures { let v = view self.now in MatchOption result (v.knows far.now hole ≡ false)
            (λ weight. (v.knows far.now hole ≡ true) × (weight ≡ v.weight far.now hole)) };

    /// A far source knows the hole of its whole document.
    ghost root_known: { (a : Self) (far : FarSource) → (view a).knows far far_root ≡ true };
}
