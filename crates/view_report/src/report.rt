// What an accepted view comes to, in words.
ghost use Rattle.std.specs.Prelude.{IfOk};
ghost use Rattle.plan_core.specs.PlanMade.{plan_value};
ghost use Rattle.plan_core.specs.Valid.{IsValid};
ghost use Rattle.view_report.specs.Report.{Reports};

use crate::class::class_words;
use crate::sources::source_lines;
use list_costs::list_words;
use mix_catalog::Catalog;
use path_words::path_words;
use plan_core::Plan;
use std::alloc::{AllocError, Global};
use view_class::{class_over, shapes_in};

/// What a plan over the sources of a catalog comes to, in words: its paths that lead nowhere over documents laid out as the catalog says, each with where
/// paths lead from there; its class; what steps in each list of its answer cost at most; and how the sources are read that it reads. Each line ends with LF.
/// `Err`: memory.
pub fn view_report(alloc: Global, catalog: &Catalog, plan: &Plan) -> Result<Vec<u8>, AllocError>
    requires { IsValid (plan_value plan.now) }
    ensures { IfOk result (λ lines. Reports catalog.now plan.now lines.items) }
{
    let shapes = shapes_in(alloc, catalog)?;
    let mut lines = path_words(alloc, &shapes, plan)?;
    let class = class_over(alloc, catalog, plan)?;
    let words = class_words(alloc, class)?;
    lines.extend_from_slice(&words)?;
    let lists = list_words(alloc, &shapes, plan)?;
    lines.extend_from_slice(&lists)?;
    let sources = source_lines(alloc, catalog, plan)?;
    lines.extend_from_slice(&sources)?;
    Ok(lines)
}
