// The plans of views.
ghost use Rattle.std.specs.Prelude.{◌≡◌, List, ℕ, true, OnOk, IfOk, IfErr};
ghost use Rattle.mix_catalog.specs.Grammar.{file_of};
ghost use Rattle.mix_io.specs.Views.{KeepsFiles, ReadsOnly};
ghost use Rattle.plan_core.specs.PlanMade.{plan_value};
ghost use Rattle.plan_evidence.specs.Held.{UsesHeld};
ghost use Rattle.xmas_read.specs.Results.{names_of_sources};
ghost use Rattle.mix_place.specs.Causes.{IsNoRule};
ghost use Rattle.mix_place.specs.Plans.{IsPlanOver, IsViewPlan};
ghost use Rattle.mix_place.specs.Stops.{IsLoadStop};
ghost use Rattle.mix_place.specs.Placed.{AreAllLower, IsLowerStop, IsViewPlaced, IsViewsStop, ViewsMayRead};
ghost use Rattle.mix_place.specs.Reading.{ReadsAmong};
ghost use Rattle.mix_place.specs.Views.{IsLower, lower_of, view_ops};

use crate::load::load_rule;
use crate::mounting::path_of;
use crate::names::source_names;
use crate::refusal::Stop;
use mix_catalog::{Catalog, SourceSpec};
use mix_io::Files;
use plan_core::Plan;
use plan_rewrite::plan_view;
use plan_uses::plans_of_views_use_what_is_held;
use std::alloc::Global;
use view_class::reads_source;

/// The plan of the rule that a file spells over the sources of a catalog, its selections moved. An error names the file and why it is refused; only
/// want of memory has no cause.
pub fn load_view<F: Files>(
    alloc: Global,
    files: &mut F,
    path: &str,
    catalog: &Catalog,
) -> Result<Plan, Stop>
    ensures keeps { KeepsFiles (F.view files.old) (F.view files.new) }
    ensures others { ReadsOnly path.now (F.view files.old) (F.view files.new) }
    ensures steady { OnOk result ((p : List ℕ) → (F.view files.new).faults p ≡ (F.view files.old).faults p) }
    ensures ok { IfOk result (λ plan. IsViewPlan (F.view files.old) path.now catalog.now (plan_value plan)) }
    ensures over { IfOk result (λ plan. IsPlanOver catalog.now (plan_value plan)) }
    ensures uses { IfOk result (λ plan. UsesHeld (plan_value plan).ops) }
    ensures err { IfErr result (IsLoadStop (IsNoRule (names_of_sources catalog.now)) (F.view files.old) (F.view files.new) path.now) }
{
    plans_of_views_use_what_is_held();
    let rule = load_rule(alloc, files, path, catalog)?;
    let names = source_names(alloc, catalog)?;
    Ok(plan_view(alloc, &rule, &names)?)
}

/// The plan of a view that is a source, where the view is read; none where it isn't. An error is as with `load_view`.
pub fn load_lower<F: Files>(
    alloc: Global,
    files: &mut F,
    base: &Catalog,
    spec: &SourceSpec,
    read: bool,
) -> Result<Option<Plan>, Stop>
    ensures keeps { KeepsFiles (F.view files.old) (F.view files.new) }
    ensures reads { ReadsAmong (λ path. (read ≡ true) × (path ≡ file_of spec.now.kind)) (F.view files.old) (F.view files.new) }
    ensures steady { OnOk result ((p : List ℕ) → (F.view files.new).faults p ≡ (F.view files.old).faults p) }
    ensures ok { IfOk result (λ view. IsLower (F.view files.old) (names_of_sources base.now) spec.now read (view_ops view)) }
    ensures plan { IfOk result (IsViewPlaced (F.view files.old) base.now spec.now) }
    ensures err { IfErr result (IsLowerStop (F.view files.old) (F.view files.new) (names_of_sources base.now) spec.now read) }
{
    if read {
        Ok(Some(load_view(alloc, files, path_of(spec.kind.file()), base)?))
    } else {
        Ok(None)
    }
}

/// The plan of each view of a catalog that a plan reads, over the sources that are no views, and none of the others. Their files are read in the order of the
/// catalog, each accepted before the next is read. An error names the first file that is refused.
pub fn load_views<F: Files>(
    alloc: Global,
    files: &mut F,
    catalog: &Catalog,
    plan: &Plan,
) -> Result<Vec<Option<Plan>>, Stop>
    ensures keeps { KeepsFiles (F.view files.old) (F.view files.new) }
    ensures reads { ReadsAmong (ViewsMayRead (F.view files.old) (plan_value plan.now).ops catalog.now) (F.view files.old) (F.view files.new) }
    ensures steady { OnOk result ((p : List ℕ) → (F.view files.new).faults p ≡ (F.view files.old).faults p) }
    ensures ok { IfOk result (λ views. AreAllLower (F.view files.old) (plan_value plan.now).ops catalog.now (lower_of views.items)) }
    ensures err { IfErr result (IsViewsStop (F.view files.old) (F.view files.new) (plan_value plan.now).ops catalog.now) }
{
    let base = catalog.base(alloc)?;
    let mut views = Vec::new(alloc);
    for n in base.len()..catalog.len() {
        let read = reads_source(plan, n);
        views.push(load_lower(alloc, files, &base, catalog.spec(n), read)?)?;
    }
    Ok(views)
}
