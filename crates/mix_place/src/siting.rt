// Where the sources of a catalog are: here, or at another machine.
ghost use Rattle.std.specs.Prelude.{◌≡◌, IfOk, cond};
ghost use Rattle.mix_reach.specs.declared.site.Site.TheVariants.{Here};
ghost use Rattle.mix_place.specs.Chosen.{every};
ghost use Rattle.mix_place.specs.Documents.{far_in};
ghost use Rattle.mix_place.specs.Mounting.{AreSites, site_by};
ghost use Rattle.mix_place.specs.Views.{lower_of, needs};
ghost use Rattle.plan_core.specs.PlanMade.{plan_value};

use crate::readers::needs_source;
use far_keep::FarSource;
use mix_catalog::{Catalog, SourceKind, SourceSpec};
use mix_reach::Site;
use plan_core::Plan;
use std::alloc::{AllocError, Global};

// Where a source is.
fn read_site(alloc: Global, spec: &SourceSpec) -> Result<Site, AllocError>
    ensures { IfOk result (λ site. site ≡ site_by (far_in spec.now.kind)) }
{
    match &spec.kind {
        SourceKind::Remote {
            replies,
            requests,
            number,
        } => {
            let replies = replies.copy(alloc)?;
            let requests = requests.copy(alloc)?;
            let number = *number;
            Ok(Site::Far(FarSource {
                replies,
                requests,
                number,
            }))
        }
        SourceKind::Bracket { .. }
        | SourceKind::Csv { .. }
        | SourceKind::Table { .. }
        | SourceKind::Json { .. }
        | SourceKind::View { .. } => Ok(Site::Here),
    }
}

// Where a source is for a plan: here, where neither the plan nor a view that it reads needs it.
fn read_site_for(
    alloc: Global,
    plan: &Plan,
    views: &[Option<Plan>],
    s: u32,
    spec: &SourceSpec,
) -> Result<Site, AllocError>
    ensures { let chosen = needs (plan_value plan.now).ops (lower_of views.now) in
        IfOk result (λ site. site ≡ cond (chosen s) (site_by (far_in spec.now.kind)) Here) }
{
    if needs_source(plan, views, s) {
        read_site(alloc, spec)
    } else {
        Ok(Site::Here)
    }
}

/// Where each source of a catalog is for a plan, by its number: at another machine where the plan or a view that it reads needs it and the catalog says so,
/// else here.
pub fn read_sites(
    alloc: Global,
    catalog: &Catalog,
    plan: &Plan,
    views: &[Option<Plan>],
) -> Result<Vec<Site>, AllocError>
    ensures { IfOk result (λ sites. AreSites (needs (plan_value plan.now).ops (lower_of views.now)) catalog.now sites.items) }
{
    let mut sites = Vec::new(alloc);
    for s in 0..catalog.len() {
        sites.push(read_site_for(alloc, plan, views, s, catalog.spec(s))?)?;
    }
    Ok(sites)
}

/// Where each source of a catalog is, by its number: at another machine where the catalog says so, else here.
pub fn read_all_sites(alloc: Global, catalog: &Catalog) -> Result<Vec<Site>, AllocError>
    ensures { IfOk result (λ sites. AreSites every catalog.now sites.items) }
{
    let mut sites = Vec::new(alloc);
    for s in 0..catalog.len() {
        sites.push(read_site(alloc, catalog.spec(s))?)?;
    }
    Ok(sites)
}
