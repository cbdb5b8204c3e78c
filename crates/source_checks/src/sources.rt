// What is said of the sources that a plan reads.
ghost use Rattle.std.specs.Prelude.{◌≡◌, IfOk, IsTrue, length};
ghost use Rattle.mix_io.specs.Views.{KeepsFiles};
ghost use Rattle.mix_place.specs.Reading.{IsFileBefore, IsWholeFile, ReadsAmong};
ghost use Rattle.plan_core.specs.PlanMade.{plan_value};
ghost use Rattle.source_checks.specs.Checks.{moment, SaysSource, SaysToday, SaysWhere};
ghost use Rattle.table_keep.specs.Views.{KeepsTables};
ghost use Rattle.view_class.specs.Reads.{reads_source};

use crate::file::file_lines;
use crate::table::table_lines;
use crate::words::source_line;
use mix_catalog::{Catalog, SourceKind, SourceSpec};
use mix_io::Files;
use page_reasons::PageReasons;
use plan_core::Plan;
use std::alloc::{AllocError, Global};
use table_keep::PageAsk;
use view_class::reads_source;

// What stands above the lines of the sources.
const HEADING: &[u8] = b"the sources as they are now:\n";

// The lines of a source by its kind.
fn source_lines<F: Files, T: PageReasons>(
    alloc: Global,
    files: &mut F,
    tables: &mut T,
    spec: &SourceSpec,
) -> Result<Vec<u8>, AllocError>
    ensures files { KeepsFiles (F.view files.old) (F.view files.new) }
    ensures tables { KeepsTables (T.view tables.old) (T.view tables.new) }
    ensures reads { ReadsAmong (IsWholeFile spec.now) (F.view files.old) (F.view files.new) }
    ensures ok { IfOk result (λ lines. SaysSource spec.now.kind spec.now (moment (F.view files.old) (T.view tables.old))
        (moment (F.view files.new) (T.view tables.new)) lines.items) }
{
    match &spec.kind {
        SourceKind::Bracket { .. } | SourceKind::Csv { .. } | SourceKind::Json { .. } => {
            file_lines(alloc, files, spec)
        }
        SourceKind::Table {
            file,
            table,
            key,
            columns,
        } => {
            let ask = PageAsk {
                file,
                table,
                key,
                columns: columns.as_slice(),
                after: None,
                limit: 1,
            };
            table_lines(alloc, tables, spec, &ask)
        }
        SourceKind::Remote { .. } => {
            source_line(alloc, spec, b"the other side is not asked here\n")
        }
        SourceKind::View { .. } => {
            source_line(
                alloc,
                spec,
                b"it is a view, which is to be explained by itself\n",
            )
        }
    }
}

// The lines of a source where it is chosen.
fn lines_where<F: Files, T: PageReasons>(
    alloc: Global,
    files: &mut F,
    tables: &mut T,
    spec: &SourceSpec,
    chosen: bool,
) -> Result<Vec<u8>, AllocError>
    ensures files { KeepsFiles (F.view files.old) (F.view files.new) }
    ensures tables { KeepsTables (T.view tables.old) (T.view tables.new) }
    ensures reads { ReadsAmong (λ path. IsTrue chosen × IsWholeFile spec.now path) (F.view files.old) (F.view files.new) }
    ensures ok { IfOk result (λ lines. SaysWhere chosen spec.now (moment (F.view files.old) (T.view tables.old))
        (moment (F.view files.new) (T.view tables.new)) lines.items) }
{
    if chosen {
        source_lines(alloc, files, tables, spec)
    } else {
        Ok(Vec::new(alloc))
    }
}

/// What the sources that a plan reads are today, in the order of the catalog: how many bytes a file has that is read whole, or the line with which it is
/// refused, with both names of a CSV header that differs; and of a table, of which one page of one row is asked, whether it gives it, with the adapter's
/// reason only where it doesn't. A source of another machine and a view are not asked. Each line ends with LF. `Err`: memory.
pub fn check_sources<F: Files, T: PageReasons>(
    alloc: Global,
    files: &mut F,
    tables: &mut T,
    catalog: &Catalog,
    plan: &Plan,
) -> Result<Vec<u8>, AllocError>
    ensures files { KeepsFiles (F.view files.old) (F.view files.new) }
    ensures tables { KeepsTables (T.view tables.old) (T.view tables.new) }
    ensures reads { let chosen = reads_source (plan_value plan.now).ops in
        ReadsAmong (IsFileBefore chosen catalog.now (length catalog.now)) (F.view files.old) (F.view files.new) }
    ensures ok { IfOk result (λ lines. SaysToday (reads_source (plan_value plan.now).ops) catalog.now (moment (F.view files.old) (T.view tables.old))
        (moment (F.view files.new) (T.view tables.new)) lines.items) }
{
    let mut lines = Vec::from_slice(alloc, HEADING)?;
    for s in 0..catalog.len() {
        let said = lines_where(alloc, files, tables, catalog.spec(s), reads_source(plan, s))?;
        lines.extend_from_slice(&said)?;
    }
    Ok(lines)
}
