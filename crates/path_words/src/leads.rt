// Where paths lead from nodes of given sorts.
ghost use Rattle.std.specs.Prelude.{◌≡◌, ◌++◌, IfOk, OnOk, codes};
ghost use Rattle.std.specs.List.{flat_map};
ghost use Rattle.browse_visit.specs.Shapes.{row_label};
ghost use Rattle.path_expr.specs.Canonical.{canon_label};
ghost use Rattle.path_words.specs.Leads.{column_line, columns_if, lead_lines, lead_lines_in, lead_text, value_if};

use browse_visit::{Shape, Sorts, TableColumn};
use mix_tree::Label;
use path_expr::{Node, Path, write_path};
use std::alloc::{AllocError, Global};

// A label as it stands in a path.
fn label_text(alloc: Global, label: &Label) -> Result<Vec<u8>, AllocError>
    ensures { IfOk result (λ text. text.items ≡ canon_label label.now) }
{
    let path = Path::new(Node::Name(label.copy(alloc)?));
    write_path(alloc, &path)
}

// Adds the path to the value of a column, after a path before it.
fn push_column(
    alloc: Global,
    lines: &mut Vec<u8>,
    front: &[u8],
    column: &TableColumn,
) -> Result<(), AllocError>
    ensures { OnOk result (lines.new.items ≡ lines.old.items ++ column_line front.now column.now) }
{
    let label = label_text(alloc, &column.label)?;
    lines.extend_from_slice(b"  ")?;
    lines.extend_from_slice(front)?;
    lines.extend_from_slice(&label)?;
    lines.extend_from_slice(b"._\n")?;
    Ok(())
}

// The paths to the values of columns, each after a path before it.
fn column_lines(alloc: Global, front: &[u8], columns: &[TableColumn]) -> Result<Vec<u8>, AllocError>
    ensures { IfOk result (λ lines. lines.items ≡ flat_map (column_line front.now) columns.now) }
{
    let mut lines = Vec::new(alloc);
    for column in columns {
        push_column(alloc, &mut lines, front, column)?;
    }
    Ok(lines)
}

// Adds the paths to the values of columns, each after a path before it, where there are nodes from which they lead.
fn push_columns(
    alloc: Global,
    lines: &mut Vec<u8>,
    has_nodes: bool,
    front: &[u8],
    columns: &[TableColumn],
) -> Result<(), AllocError>
    ensures { OnOk result (lines.new.items ≡ lines.old.items ++ columns_if has_nodes front.now columns.now) }
{
    if has_nodes {
        let more = column_lines(alloc, front, columns)?;
        lines.extend_from_slice(&more)?;
    }
    Ok(())
}

// Adds the path to a value, where there are columns from which it leads.
fn push_value(lines: &mut Vec<u8>, has_columns: bool) -> Result<(), AllocError>
    ensures { OnOk result (lines.new.items ≡ lines.old.items ++ value_if has_columns) }
{
    if has_columns {
        lines.extend_from_slice(b"  _\n")?;
    }
    Ok(())
}

// The path from a document to its rows, with the dot after it.
fn rows_path(alloc: Global, name: &Label) -> Result<Vec<u8>, AllocError>
    ensures { IfOk result (λ path. path.items ≡ canon_label name.now ++ codes ".row.") }
{
    let mut path = label_text(alloc, name)?;
    path.extend_from_slice(b".row.")?;
    Ok(path)
}

// Where paths lead from nodes of these sorts of a source with rows.
fn lead_lines_in(
    alloc: Global,
    name: &Label,
    columns: &[TableColumn],
    from: Sorts,
) -> Result<Vec<u8>, AllocError>
    ensures { IfOk result (λ lines. lines.items ≡ lead_lines_in name.now columns.now from) }
{
    let rows = rows_path(alloc, name)?;
    let mut lines = Vec::new(alloc);
    push_columns(alloc, &mut lines, from.document, &rows, columns)?;
    push_columns(alloc, &mut lines, from.root, b"row.", columns)?;
    push_columns(alloc, &mut lines, from.row, b"", columns)?;
    push_value(&mut lines, from.value || from.maybe_value)?;
    Ok(lines)
}

// Where paths lead from nodes of these sorts of a source.
fn lead_lines(alloc: Global, shape: &Shape, from: Sorts) -> Result<Vec<u8>, AllocError>
    ensures { IfOk result (λ lines. lines.items ≡ lead_lines shape.now from) }
{
    match shape {
        Shape::Any => Ok(Vec::new(alloc)),
        Shape::Rows { name, columns } => lead_lines_in(alloc, name, columns.as_slice(), from),
    }
}

/// Where paths lead from nodes of these sorts of a source, a line each after a heading; or that none leads anywhere. `Err`: memory.
pub fn lead_text(alloc: Global, shape: &Shape, from: Sorts) -> Result<Vec<u8>, AllocError>
    ensures { IfOk result (λ text. text.items ≡ lead_text (lead_lines shape.now from)) }
{
    let lines = lead_lines(alloc, shape, from)?;
    if lines.is_empty() {
        return Vec::from_slice(alloc, b"from there no path leads anywhere\n");
    }
    let mut text = Vec::from_slice(
        alloc,
        b"from there lead these paths, and what they begin with:\n",
    )?;
    text.extend_from_slice(&lines)?;
    Ok(text)
}
