// Which sources a plan and the views that it reads need.
ghost use Rattle.std.specs.Prelude.{◌≡◌};
ghost use Rattle.std.specs.List.{list_any};
ghost use Rattle.plan_core.specs.PlanMade.{plan_value};
ghost use Rattle.mix_place.specs.Views.{adds, lower_of, needs, reads_lower, view_ops};

use plan_core::Plan;
use view_class::reads_source;

// Whether a view reads a source; one that isn't read itself reads none.
fn reads_lower(view: &Option<Plan>, s: u32) -> bool
    ensures { result ≡ reads_lower s (view_ops view.now) }
{
    match view {
        Some(lower) => reads_source(lower, s),
        None => false,
    }
}

// Whether one of some views reads a source.
fn any_reads(views: &[Option<Plan>], s: u32) -> bool
    ensures { result ≡ list_any (λ view. reads_lower s (view_ops view)) views.now }
{
    views.iter().any(|view| reads_lower(view, s))
}

/// Whether a plan reads a source, or one of the views does that it reads.
pub fn needs_source(plan: &Plan, views: &[Option<Plan>], s: u32) -> bool
    ensures { result ≡ needs (plan_value plan.now).ops (lower_of views.now) s }
{
    reads_source(plan, s) || any_reads(views, s)
}

/// The sources that a view reads, and neither the plan above it nor a view before it.
#[derive(Clone, Copy)]
pub struct Added<'a> {
    pub lower: &'a Option<Plan>,
    pub plan: &'a Plan,
    pub views: &'a [Option<Plan>],
}

/// Whether a source is one of those that a view adds.
pub fn is_added(added: &Added<'_>, s: u32) -> bool
    ensures { let a = added.now in result ≡ adds (plan_value a.plan.now).ops (lower_of a.views.now) (view_ops a.lower.now) s }
{
    reads_lower(added.lower, s) && !needs_source(added.plan, added.views, s)
}
