// The shapes of the documents of a catalog's sources.
ghost use Rattle.std.specs.Prelude.{◌≡◌, ℕ, map, IfOk};
ghost use Rattle.browse_visit.specs.Layouts.{Layout};
ghost use Rattle.browse_visit.specs.Shapes.{shape_layout, shapes_of};
ghost use Rattle.view_class.specs.Layouts.{field_column, declared_column, spec_layout, layout_in};

use browse_visit::{Shape, TableColumn};
use mix_catalog::{Catalog, Column, SourceKind, SourceSpec};
use mix_tree::Label;
use std::alloc::{AllocError, Global};

// The columns of a CSV file: each row has a value in each, be it the empty text.
fn field_columns(alloc: Global, names: &[Label]) -> Result<Vec<TableColumn>, AllocError>
    ensures { IfOk result (λ columns. columns.items ≡ map field_column names.now) }
{
    let mut columns = Vec::new(alloc);
    for name in names {
        let label = name.copy(alloc)?;
        columns.push(TableColumn {
            label,
            has_value: true,
        })?;
    }
    Ok(columns)
}

// The columns of a table: each row has a value in those that are never NULL.
fn declared_columns(alloc: Global, declared: &[Column]) -> Result<Vec<TableColumn>, AllocError>
    ensures { IfOk result (λ columns. columns.items ≡ map declared_column declared.now) }
{
    let mut columns = Vec::new(alloc);
    for column in declared {
        let label = column.name.copy(alloc)?;
        columns.push(TableColumn {
            label,
            has_value: column.never_null,
        })?;
    }
    Ok(columns)
}

// The shape of the documents of a source.
fn spec_shape(alloc: Global, spec: &SourceSpec) -> Result<Shape, AllocError>
    ensures { IfOk result (λ shape. shape_layout shape ≡ spec_layout spec.now) }
{
    match &spec.kind {
        SourceKind::Bracket { .. }
        | SourceKind::Remote { .. }
        | SourceKind::Json { .. }
        | SourceKind::View { .. } => Ok(Shape::Any),
        SourceKind::Csv { columns, .. } => {
            let name = spec.name.copy(alloc)?;
            let columns = field_columns(alloc, columns.as_slice())?;
            Ok(Shape::Rows { name, columns })
        }
        SourceKind::Table { columns, .. } => {
            let name = spec.name.copy(alloc)?;
            let columns = declared_columns(alloc, columns.as_slice())?;
            Ok(Shape::Rows { name, columns })
        }
    }
}

/// The shapes of the documents of a catalog's sources, by their numbers.
pub fn shapes_in(alloc: Global, catalog: &Catalog) -> Result<Vec<Shape>, AllocError>
    ensures { IfOk result (λ shapes. shapes_of shapes.items ≡ layout_in catalog.now) }
{
    let mut shapes = Vec::new(alloc);
    for s in 0..catalog.len() {
        shapes.push(spec_shape(alloc, catalog.spec(s))?)?;
    }
    Ok(shapes)
}
