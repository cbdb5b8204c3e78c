// Sources of other machines, in memory, which fail at the fills that their lists name.
ghost use Rattle.std.specs.Prelude.{◌≡◌, length, true};
ghost use Rattle.std.specs.List.{list_all};
ghost use Rattle.far_keep.specs.Listed.{is_small};

use crate::far_source::is_far_root;
use crate::{FarSource, Fars, MemFar, same_far};
use lxp_core::{HoleId, OpenTree, SourceFault};
use std::alloc::{AllocError, Global};

/// Sources of other machines, in memory. Of two of one name the first counts.
///
/// Each knows the hole of its whole document alone. A fill of it is answered with the whole document, as one list without holes; it
/// fails where no source of the name is listed, and where the source's list names it, counted from 1 over such fills of that source.
#[derive(Drop)]
pub struct MemFars {
    fars: Vec<MemFar>,
    // How many fills of its whole document each was asked.
    calls: Vec<u64>,
    // How often each failed.
    faults: Vec<u64>,
    // How often one that isn't listed was asked.
    unlisted: u64,
    ghost small: { list_all is_small fars.items ≡ true },
    ghost called: { length calls.items ≡ length fars.items },
    ghost failed: { length faults.items ≡ length fars.items },
}

impl MemFars {
    ghost use Rattle.std.specs.Prelude.{◌≡◌, IfOk, true};
    ghost use Rattle.std.specs.List.{list_all};
    ghost use Rattle.far_keep.specs.declared.far_source.FarSource.{FarSource};
    ghost use Rattle.far_keep.specs.Listed.{is_small, place_of};
    ghost use Rattle.far_keep.specs.Memory.{calls_of, fars_of, mem_fars_view};

    /// Far sources of which no fill was asked.
    pub fn new(alloc: Global, fars: Vec<MemFar>) -> Result<MemFars, AllocError>
        requires { list_all is_small fars.items ≡ true }
        ensures fars { IfOk result (λ m. fars_of m ≡ fars.items) }
        ensures calls { IfOk result (λ m. (far : FarSource) → calls_of m far ≡ 0) }
        ensures faults { IfOk result (λ m. (far : FarSource) → (mem_fars_view m).faults far ≡ 0) }
    {
        let count = fars.len();
        Ok(MemFars {
            fars,
            calls: vec![in alloc; 0; count]?,
            faults: vec![in alloc; 0; count]?,
            unlisted: 0,
        })
    }

    // The place of the first source of a name, where there is one.
    fn place(&self, far: &FarSource) -> Option<usize>
        ensures { result ≡ place_of (fars_of self.now) far.now }
    {
        self.fars.iter().position(|m| same_far(&m.far, far))
    }
}

impl Fars for MemFars {
    ghost use Rattle.std.specs.Prelude.{◌≡◌, ◌≢◌, true, IfOk, IsErrOf};
    ghost use Rattle.lxp_core.specs.Fill.{Answers, IsRefused};
    ghost use Rattle.lxp_core.specs.Open.{without_holes};
    ghost use Rattle.lxp_core.specs.Plain.{plain};
    ghost use Rattle.far_keep.specs.declared.far_source.FarSource.{FarSource};
    ghost use Rattle.far_keep.specs.Listed.{place_of};
    ghost use Rattle.far_keep.specs.Memory.{calls_of, fails_next, fars_of, mem_fars_view, next_call, root_is_known};
    ghost use Rattle.far_keep.specs.Views.{KeepsFars, document, far_document};

    ghost view = { mem_fars_view };

    fn fill(
        &mut self,
        alloc: Global,
        far: &FarSource,
        hole: HoleId,
    ) -> Result<Vec<OpenTree>, SourceFault>
        ensures keeps { KeepsFars (mem_fars_view self.old) (mem_fars_view self.new) }
        ensures answers { let before = far_document (mem_fars_view self.old) far.now in
            let after = far_document (mem_fars_view self.new) far.now in
            IfOk result (λ list. Answers before after hole (plain list.items)) }
        ensures refused { let before = far_document (mem_fars_view self.old) far.now in
            let after = far_document (mem_fars_view self.new) far.now in
            IsRefused _ before after hole result }
        ensures whole { IfOk result (λ list. plain list.items ≡ without_holes (document (mem_fars_view self.old) far.now)) }
        // Which fills fail, and that no others count as faults.
        ensures named { IsErrOf result SourceFault.Failed → fails_next self.old far.now ≡ true }
        ensures fails { (mem_fars_view self.old).knows far.now hole ≡ true → fails_next self.old far.now ≡ true
            → IsErrOf result SourceFault.Failed }
        ensures steady { ¬ IsErrOf result SourceFault.Failed
            → (other : FarSource) → (mem_fars_view self.new).faults other ≡ (mem_fars_view self.old).faults other }
        ensures others { let place = place_of (fars_of self.old) in (other : FarSource) → place other ≢ place far.now
            → (mem_fars_view self.new).faults other ≡ (mem_fars_view self.old).faults other }
        ensures calls { (mem_fars_view self.old).knows far.now hole ≡ true → calls_of self.new far.now ≡ next_call self.old far.now }
        ensures list { fars_of self.new ≡ fars_of self.old }
    {
        if !is_far_root(hole) {
            return Err(SourceFault::UnknownHole);
        }
        let Some(i) = self.place(far) else {
            self.unlisted = self.unlisted.saturating_add(1);
            return Err(SourceFault::Failed);
        };
        self.calls[i] = self.calls[i].saturating_add(1);
        if self.fars[i].names(self.calls[i]) {
            self.faults[i] = self.faults[i].saturating_add(1);
            return Err(SourceFault::Failed);
        }
        Ok(self.fars[i].list(alloc)?)
    }

    fn weight(&self, far: &FarSource, hole: HoleId) -> Option<u128> {
        if !is_far_root(hole) {
            return None;
        }
        match self.place(far) {
            None => Some(0),
            Some(i) => self.fars[i].weight(),
        }
    }

    ghost root_known = { root_is_known };
}
