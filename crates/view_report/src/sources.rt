// How the sources of a plan are read, in words.
ghost use Rattle.std.specs.Prelude.{◌≡◌, ◌≤◌, ◌++◌, IfOk, OnOk, cond, length};
ghost use Rattle.plan_core.specs.PlanMade.{plan_value};
ghost use Rattle.view_class.specs.Reads.{reads_source};
ghost use Rattle.view_report.specs.Sources.{reading_line, reading_of, source_lines};

use mix_catalog::{Catalog, SourceKind, SourceSpec};
use plan_core::Plan;
use std::alloc::{AllocError, Global};
use view_class::reads_source;

// How a source of a kind is read.
fn reading_of(kind: &SourceKind) -> &'static str
    ensures { result.now ≡ reading_of kind.now }
{
    match kind {
        SourceKind::Bracket { .. } | SourceKind::Csv { .. } | SourceKind::Json { .. } => {
            ": its file is read whole at the start\n"
        }
        SourceKind::Table { .. } => ": its table is read by pages, as steps need rows\n",
        SourceKind::Remote { .. } => ": the other side is asked for pieces, as steps need them\n",
        SourceKind::View { .. } => ": it is a view, of which a step asks no more than it needs\n",
    }
}

// Adds the line that says how a source is read.
fn push_source(lines: &mut Vec<u8>, spec: &SourceSpec) -> Result<(), AllocError>
    ensures { OnOk result (lines.new.items ≡ lines.old.items ++ reading_line spec.now) }
{
    lines.extend_from_slice(b"source ")?;
    lines.extend_from_slice(spec.name.bytes())?;
    lines.extend_from_slice(reading_of(&spec.kind).as_bytes())?;
    Ok(())
}

/// How each source is read that a plan reads, a line each, in the order of the catalog. `Err`: memory.
pub fn source_lines(alloc: Global, catalog: &Catalog, plan: &Plan) -> Result<Vec<u8>, AllocError>
    ensures { IfOk result (λ lines. lines.items ≡ source_lines (reads_source (plan_value plan.now).ops) catalog.now (length catalog.now)) }
{
    let mut lines = Vec::new(alloc);
    for number in 0..catalog.len() {
        if reads_source(plan, number) {
            push_source(&mut lines, catalog.spec(number))?;
        }
    }
    Ok(lines)
}
