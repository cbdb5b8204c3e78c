// The sources of a plan, placed for it: those that it reads, and those that the views among them read.
ghost use Rattle.std.specs.Prelude.{◌≡◌, IfOk, IfErr};
ghost use Rattle.mix_io.specs.Views.{FilesView, KeepsFiles};
ghost use Rattle.plan_core.specs.PlanMade.{plan_value};
ghost use Rattle.mix_place.specs.Mounting.{IsSpelled};
ghost use Rattle.mix_place.specs.Placed.{ArePlaced, IsPlaceStop, SourceMayRead, placed};
ghost use Rattle.mix_place.specs.Reading.{ReadsAmong};

use crate::mounting::{mount_more, mount_sources};
use crate::readers::Added;
use crate::refusal::Stop;
use crate::siting::read_sites;
use crate::viewing::load_lower;
use mix_catalog::Catalog;
use mix_io::Files;
use mix_mount::Mount;
use mix_reach::Site;
use plan_core::Plan;
use std::alloc::Global;
use view_class::reads_source;

/// What a plan reads, placed: the documents of the sources that are no views, where each of these is, and the plan of each view that it reads. Where
/// neither the plan nor such a view needs a source, nothing is mounted, and there is no plan of a view that the plan doesn't read.
#[derive(Drop)]
pub struct Placement {
    pub docs: Vec<Mount>,
    pub sites: Vec<Site>,
    pub views: Vec<Option<Plan>>,
}

/// Places the sources of a catalog for a plan. Their files are read, each accepted before the next is read: those of the sources that are no views and that the
/// plan reads, in the order of the catalog, and then for each view that it reads, in this order, the file of the view, and those of the sources that the view
/// reads and that nothing read before it. An error names the first file that is refused.
pub fn place_sources<F: Files>(
    alloc: Global,
    files: &mut F,
    catalog: &Catalog,
    plan: &Plan,
) -> Result<Placement, Stop>
    requires { IsSpelled catalog.now }
    ensures keeps { KeepsFiles (F.view files.old) (F.view files.new) }
    ensures reads { ReadsAmong (SourceMayRead (F.view files.old) (plan_value plan.now).ops catalog.now) (F.view files.old) (F.view files.new) }
    ensures ok { IfOk result (λ p. ArePlaced (F.view files.old) (plan_value plan.now).ops catalog.now (placed p)) }
    ensures err { IfErr result (IsPlaceStop (F.view files.old) (F.view files.new) (plan_value plan.now).ops catalog.now) }
{
    let base = catalog.base(alloc)?;
    let mut docs = mount_sources(alloc, files, &base, plan)?;
    let mut views = Vec::new(alloc);
    for n in base.len()..catalog.len() {
        let read = reads_source(plan, n);
        let lower = load_lower(alloc, files, &base, catalog.spec(n), read)?;
        let added = Added {
            lower: &lower,
            plan,
            views: views.as_slice(),
        };
        mount_more(alloc, files, &base, &added, &mut docs)?;
        views.push(lower)?;
    }
    let sites = read_sites(alloc, &base, plan, &views)?;
    Ok(Placement { docs, sites, views })
}
