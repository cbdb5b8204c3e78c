// The class of a plan over the sources of a catalog.
ghost use Rattle.std.specs.Prelude.{◌≡◌, IfOk};
ghost use Rattle.plan_core.specs.PlanMade.{plan_value};
ghost use Rattle.plan_core.specs.Valid.{IsValid};
ghost use Rattle.browse_class.specs.Classes.{class_in};
ghost use Rattle.view_class.specs.Layouts.{layout_in};

use crate::shapes::shapes_in;
use browse_class::Class;
use mix_catalog::Catalog;
use plan_class::class_of;
use plan_core::Plan;
use std::alloc::{AllocError, Global};

/// The class of a plan over the sources of a catalog, by what the catalog says of them: of a CSV file its columns, of a table also in which of
/// them each row has a value, and nothing of a file of bracket text (docs/MEANING.md, "Classes of views").
pub fn class_over(alloc: Global, catalog: &Catalog, plan: &Plan) -> Result<Class, AllocError>
    requires { IsValid (plan_value plan.now) }
    ensures { IfOk result (λ class. class ≡ class_in (layout_in catalog.now) (plan_value plan.now).ops) }
{
    let shapes = shapes_in(alloc, catalog)?;
    class_of(alloc, plan, &shapes)
}
