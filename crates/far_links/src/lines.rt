// The lines over which far sources are asked: one for each two files.
ghost use Rattle.std.specs.Prelude.{◌≡◌, ◌⊎◌, ◌≤◌, false, true, Some, IfOk, IfErr, IsErrOf, MatchOption};
ghost use Rattle.lxp_core.specs.Open.{AllHoles, IsProgress, weight_of};
ghost use Rattle.lxp_core.specs.Plain.{plain};
ghost use Rattle.lxp_core.specs.Small.{IsSmall};
ghost use Rattle.far_keep.specs.declared.far_source.FarSource.{FarSource as Source};
ghost use Rattle.far_links.specs.declared.fault.FarFault.{FarFault as Cause};
ghost use Rattle.far_links.specs.declared.fault.Refusal.TheVariants.{Fault};
ghost use Rattle.far_links.specs.Failing.{HasFailed};
ghost use Rattle.far_links.specs.Lines.{line_place, standing_of};
ghost use Rattle.far_links.specs.Standing.{KeepsLine, knows, weight};

use crate::dial::Dial;
use crate::fault::Refusal;
use crate::holes::is_far_root;
use crate::line::Line;
use far_keep::FarSource;
use lxp_core::{HoleId, OpenTree};
use lxp_wire::Link;
use std::alloc::{AllocError, Global};

// The place of the line over the two files of a far source, where there is one.
fn find_line<L: Link + Drop>(lines: &[Line<L>], far: &FarSource) -> Option<usize>
    ensures { result ≡ line_place lines.now far.now }
{
    lines.iter().position(|line| line.joins(far))
}

// The place of the line over the two files of a far source, which is put there without a link where there was none.
fn reach_line<L: Link + Drop>(
    alloc: Global,
    lines: &mut Vec<Line<L>>,
    far: &FarSource,
) -> Result<usize, AllocError>
    ensures place { IfOk result (λ i. line_place lines.new.items far.now ≡ Some i) }
    ensures kept { (other : Source) → standing_of L.view lines.new.items other ≡ standing_of L.view lines.old.items other }
{
    if let Some(place) = find_line(lines, far) {
        return Ok(place);
    }
    let place = lines.len();
    lines.push(Line::new(alloc, far)?)?;
    Ok(place)
}

/// The list of a hole of a far source, over the line over its two files.
pub fn fill_line<L: Link + Drop, D: Dial<L>>(
    alloc: Global,
    dial: &D,
    lines: &mut Vec<Line<L>>,
    far: &FarSource,
    hole: HoleId,
) -> Result<Vec<OpenTree>, Refusal>
    ensures keeps { (other : Source) → KeepsLine (standing_of L.view lines.old.items other) (standing_of L.view lines.new.items other) }
    // What the answer promises.
    ensures progress { IfOk result (λ list. IsProgress (plain list.items)) }
    ensures known { let new = standing_of L.view lines.new.items far.now in
        IfOk result (λ list. AllHoles (knows new far.now.number) (plain list.items)) }
    ensures lighter { let old = standing_of L.view lines.old.items far.now in let new = standing_of L.view lines.new.items far.now in
        IfOk result (λ list. weight_of (weight new far.now.number) (plain list.items) ≤ weight old far.now.number hole) }
    ensures small { IfOk result (λ list. IsSmall (plain list.items)) }
    // For which causes there is none.
    ensures failed { let old = standing_of L.view lines.old.items far.now in let new = standing_of L.view lines.new.items far.now in
        IfErr result (λ e. (cause : Cause) → e ≡ Fault cause → HasFailed old new far.now.number hole cause) }
    ensures unknown { let old = standing_of L.view lines.old.items far.now in
        IsErrOf result Refusal.UnknownHole → knows old far.now.number hole ≡ false }
    ensures only_unknown { let old = standing_of L.view lines.old.items far.now in
        knows old far.now.number hole ≡ false → IsErrOf result Refusal.UnknownHole ⊎ IsErrOf result Refusal.OutOfMemory }
{
    let place = reach_line(alloc, lines, far)?;
    lines[place].fill(alloc, dial, far.number, hole)
}

/// The weight of a hole of a far source; `None` where the far source doesn't know it.
pub fn weigh_hole<L: Link + Drop>(lines: &[Line<L>], far: &FarSource, hole: HoleId) -> Option<u128>
    ensures { let v = standing_of L.view lines.now far.now in MatchOption result (knows v far.now.number hole ≡ false)
        (λ count. (knows v far.now.number hole ≡ true) × (count ≡ weight v far.now.number hole)) }
{
    if is_far_root(hole) {
        return Some(u128::MAX);
    }
    let place = find_line(lines, far)?;
    lines[place].weight(far.number, hole)
}
