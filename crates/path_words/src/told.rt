// The paths of a plan that lead nowhere, in words.
ghost use Rattle.std.specs.Prelude.{◌≡◌, ◌++◌, IfOk, OnOk};
ghost use Rattle.std.specs.List.{flat_map};
ghost use Rattle.browse_visit.specs.Shapes.{shape_at};
ghost use Rattle.plan_core.specs.PlanMade.{plan_value};
ghost use Rattle.plan_core.specs.Valid.{IsValid};
ghost use Rattle.unsatisfiable_paths.specs.Unsatisfiable as unsatisfiable;
ghost use Rattle.path_words.specs.Leads.{lead_lines, lead_text};
ghost use Rattle.path_words.specs.Told.{leads_said, path_lines, path_said};

use crate::leads::lead_text;
use crate::path::{has_nodes, head_line};
use browse_visit::{Shape, Sorts};
use plan_core::{Op, Plan};
use std::alloc::{AllocError, Global};
use unsatisfiable_paths::{UnsatisfiablePath, unsatisfiable_in};

// Where paths lead from nodes of these sorts of a source by its number.
fn leads_of(
    alloc: Global,
    shapes: &[Shape],
    source: u32,
    from: Sorts,
) -> Result<Vec<u8>, AllocError>
    ensures { IfOk result (λ text. text.items ≡ lead_text (lead_lines (shape_at shapes.now source) from)) }
{
    let any = Shape::Any;
    let shape = match shapes.get(source as usize) {
        Some(shape) => shape,
        None => &any,
    };
    lead_text(alloc, shape, from)
}

// Adds where paths lead from nodes of these sorts of a source by its number, where there may be some.
fn push_leads(
    alloc: Global,
    lines: &mut Vec<u8>,
    shapes: &[Shape],
    source: u32,
    from: Sorts,
) -> Result<(), AllocError>
    ensures { OnOk result (lines.new.items ≡ lines.old.items ++ leads_said (shape_at shapes.now source) from) }
{
    if has_nodes(from) {
        let leads = leads_of(alloc, shapes, source, from)?;
        lines.extend_from_slice(&leads)?;
    }
    Ok(())
}

// What is said of a path that leads nowhere.
fn path_lines(
    alloc: Global,
    shapes: &[Shape],
    plan: &Plan,
    unsatisfiable: UnsatisfiablePath,
) -> Result<Vec<u8>, AllocError>
    ensures { IfOk result (λ lines. lines.items ≡ path_lines shapes.now plan.now unsatisfiable) }
{
    let Some(Op::GetDescendants { path, out, .. }) = plan.ops.get(unsatisfiable.op) else {
        return Ok(Vec::new(alloc));
    };
    let Some(name) = plan.names.get(out.number() as usize) else {
        return Ok(Vec::new(alloc));
    };
    let mut lines = head_line(alloc, &plan.sources, unsatisfiable, path, name)?;
    push_leads(
        alloc,
        &mut lines,
        shapes,
        unsatisfiable.source,
        unsatisfiable.from,
    )?;
    Ok(lines)
}

/// The paths of a plan that match nothing, whatever documents of these shapes its sources have, in words: of each that is a named variable's which
/// it is, from where it leads nowhere, and where paths lead from there. Each line ends with LF; without such paths there is none. `Err`: memory.
pub fn path_words(alloc: Global, shapes: &[Shape], plan: &Plan) -> Result<Vec<u8>, AllocError>
    requires { IsValid (plan_value plan.now) }
    ensures { IfOk result (λ words. words.items ≡ flat_map (path_lines shapes.now plan.now) (unsatisfiable.unsatisfiable_in shapes.now (plan_value plan.now).ops)) }
{
    let paths = unsatisfiable_in(alloc, plan, shapes)?;
    let mut words = Vec::new(alloc);
    for path in &paths {
        let lines = path_lines(alloc, shapes, plan, *path)?;
        words.extend_from_slice(&lines)?;
    }
    Ok(words)
}
