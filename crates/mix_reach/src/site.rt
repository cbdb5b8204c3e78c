// Where a source is.
ghost use Rattle.std.specs.Prelude.{◌≡◌, MatchOption};
ghost use Rattle.mix_reach.specs.Reach.{site_at};

use far_keep::FarSource;

/// Where a source is.
#[derive(Drop)]
pub enum Site {
    /// Mounted here.
    Here,
    /// At another machine.
    Far(FarSource),
}

/// The far source of a number; `None` where the source of the number is here.
pub(crate) fn far_at(sites: &[Site], s: u32) -> Option<&FarSource>
    ensures { let site = site_at sites.now s in MatchOption result (site ≡ Site.Here) (λ far. site ≡ Site.Far far.now) }
{
    match sites.get(s as usize) {
        Some(Site::Far(far)) => Some(far),
        Some(Site::Here) | None => None,
    }
}
