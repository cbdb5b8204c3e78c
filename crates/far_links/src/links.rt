// Sources of other machines, reached over links.
use crate::asked::Asked;
use crate::dial::Dial;
use crate::fault::{FarFault, Refusal};
use crate::line::Line;
use crate::lines::{fill_line, weigh_hole};
use crate::noting::{last_fault, note_asked};
use far_keep::{FarSource, Fars};
use lxp_core::{HoleId, OpenTree, SourceFault};
use lxp_wire::Link;
use std::alloc::Global;

/// Sources of other machines, reached over links, which are dialled at the first fill over their two files. None tells its document.
///
/// Each far source knows the hole of its whole document. The first fill of it over two files asks the other side how many sources it has,
/// and for the root of each; where that fails, the next such fill asks again. Every other hole is known once it came in a list.
#[derive(Drop)]
pub struct FarLinks<L: Link, D> {
    dial: D,
    lines: Vec<Line<L>>,
    asked: Vec<Asked>,
}

impl<L: Link, D> FarLinks<L, D> {
    ghost use Rattle.std.specs.Prelude.{◌≡◌, ◌↔◌, None};
    ghost use Rattle.far_keep.specs.declared.far_source.FarSource.{FarSource as Source};
    ghost use Rattle.far_links.specs.Links.{faults_of, last_of, standing_of};
    ghost use Rattle.far_links.specs.Standing.{undialled};

    /// Far sources of which none was asked. No link is dialled.
    pub fn new(alloc: Global, dial: D) -> FarLinks<L, D>
        ensures undialled { (far : Source) → standing_of L.view result far ≡ undialled }
        ensures faults { (far : Source) → faults_of result far ≡ 0 }
        ensures last { (far : Source) → last_of result far ≡ None }
    {
        FarLinks {
            dial,
            lines: Vec::new(alloc),
            asked: Vec::new(alloc),
        }
    }

    /// Why a far source failed last; `None` exactly where it never failed.
    pub fn last(&self, far: &FarSource) -> Option<FarFault>
        ensures last { result ≡ last_of self.now far.now }
        ensures never { result ≡ None ↔ faults_of self.now far.now ≡ 0 }
    {
        last_fault(&self.asked, far)
    }
}

impl<L: Link + Drop, D: Dial<L>> Fars for FarLinks<L, D> {
    ghost use Rattle.std.specs.Prelude.{◌≡◌, false, Some, IfOk, IsErrOf};
    ghost use Rattle.lxp_core.specs.Fill.{Answers, IsRefused};
    ghost use Rattle.lxp_core.specs.Plain.{plain};
    ghost use Rattle.far_keep.specs.declared.far_source.FarSource.{FarSource as Source};
    ghost use Rattle.far_keep.specs.Names.{is_same};
    ghost use Rattle.far_keep.specs.Views.{KeepsFars, far_document};
    ghost use Rattle.far_links.specs.declared.fault.FarFault.{FarFault as Cause};
    ghost use Rattle.far_links.specs.Failing.{HasFailed};
    ghost use Rattle.far_links.specs.Links.{last_of, links_view, root_is_known, standing_of};

    ghost view = { λ f. links_view L.view f };

    fn fill(
        &mut self,
        alloc: Global,
        far: &FarSource,
        hole: HoleId,
    ) -> Result<Vec<OpenTree>, SourceFault>
        ensures keeps { KeepsFars (links_view L.view self.old) (links_view L.view self.new) }
        ensures answers { let before = far_document (links_view L.view self.old) far.now in
            let after = far_document (links_view L.view self.new) far.now in
            IfOk result (λ list. Answers before after hole (plain list.items)) }
        ensures refused { let before = far_document (links_view L.view self.old) far.now in
            let after = far_document (links_view L.view self.new) far.now in
            IsRefused _ before after hole result }
        ensures named { let old = standing_of L.view self.old far.now in let new = standing_of L.view self.new far.now in
            IsErrOf result SourceFault.Failed
            → (cause : Cause) × (last_of self.new far.now ≡ Some cause) × HasFailed old new far.now.number hole cause }
        // What counts no fault.
        ensures steady { ¬ IsErrOf result SourceFault.Failed → (other : Source)
            → ((links_view L.view self.new).faults other ≡ (links_view L.view self.old).faults other)
            × (last_of self.new other ≡ last_of self.old other) }
        ensures others { (other : Source) → is_same far.now other ≡ false
            → ((links_view L.view self.new).faults other ≡ (links_view L.view self.old).faults other)
            × (last_of self.new other ≡ last_of self.old other) }
    {
        let place = note_asked(alloc, &mut self.asked, far)?;
        match fill_line(alloc, &self.dial, &mut self.lines, far, hole) {
            Ok(list) => Ok(list),
            Err(Refusal::UnknownHole) => Err(SourceFault::UnknownHole),
            Err(Refusal::OutOfMemory) => Err(SourceFault::OutOfMemory),
            Err(Refusal::Fault(fault)) => {
                self.asked[place].count(fault);
                Err(SourceFault::Failed)
            }
        }
    }

    fn weight(&self, far: &FarSource, hole: HoleId) -> Option<u128> {
        weigh_hole(&self.lines, far, hole)
    }

    ghost root_known = { λ a far. root_is_known L.view a far };
}
