// Finding the far sources that were asked, and noting further ones.
ghost use Rattle.std.specs.Prelude.{◌≡◌, ◌↔◌, Some, None, IfOk};
ghost use Rattle.far_keep.specs.declared.far_source.FarSource.{FarSource as Source};
ghost use Rattle.far_links.specs.Asked.{asked_place, faults_of, last_of};

use crate::asked::Asked;
use crate::fault::FarFault;
use far_keep::{FarSource, same_far};
use std::alloc::{AllocError, Global};

/// Why a far source failed last; `None` exactly where it never failed.
pub fn last_fault(asked: &[Asked], far: &FarSource) -> Option<FarFault>
    ensures last { result ≡ last_of asked.now far.now }
    ensures never { result ≡ None ↔ faults_of asked.now far.now ≡ 0 }
{
    let place = find_asked(asked, far)?;
    asked[place].last
}

// The place of a far source among those that were asked, where it was.
fn find_asked(asked: &[Asked], far: &FarSource) -> Option<usize>
    ensures { result ≡ asked_place asked.now far.now }
{
    asked.iter().position(|a| same_far(&a.far, far))
}

/// The place of a far source among those that were asked, of which it is one from then on. None counts a fault.
pub fn note_asked(
    alloc: Global,
    asked: &mut Vec<Asked>,
    far: &FarSource,
) -> Result<usize, AllocError>
    ensures place { IfOk result (λ i. asked_place asked.new.items far.now ≡ Some i) }
    ensures faults { (other : Source) → faults_of asked.new.items other ≡ faults_of asked.old.items other }
    ensures last { (other : Source) → last_of asked.new.items other ≡ last_of asked.old.items other }
{
    if let Some(place) = find_asked(asked, far) {
        return Ok(place);
    }
    let place = asked.len();
    asked.push(Asked::new(alloc, far)?)?;
    Ok(place)
}
