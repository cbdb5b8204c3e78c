// The class of the view of many people.
ghost use Rattle.std.specs.Prelude.{◌≡◌, true, IfOk};
ghost use Rattle.browse_visit.specs.Shapes.{shapes_of, shape_layout};
ghost use Rattle.mix_load.specs.Classing.{names_class, people_layout, people_rows};

use crate::view::{label, names_rule};
use browse_class::Class;
use browse_visit::{Shape, TableColumn};
use plan_class::class_of;
use plan_rewrite::plan_view;
use std::alloc::{AllocError, Global};

// A column in which each row has a value.
fn column(alloc: Global, name: &str) -> Result<TableColumn, AllocError>
    ensures { IfOk result (λ column. column ≡ record { label = name.now; has_value = true }) }
{
    let label = label(alloc, name)?;
    Ok(TableColumn {
        label,
        has_value: true,
    })
}

// The shape of the document of people.
fn people_shape(alloc: Global) -> Result<Shape, AllocError>
    ensures { IfOk result (λ shape. shape_layout shape ≡ people_rows) }
{
    let id = column(alloc, "id")?;
    let name = column(alloc, "name")?;
    let zip = column(alloc, "zip")?;
    Ok(Shape::Rows {
        name: label(alloc, "people")?,
        columns: vec![in alloc; id, name, zip]?,
    })
}

// Shapes of which the first is that of the document of people.
fn people_shapes(alloc: Global) -> Result<Vec<Shape>, AllocError>
    ensures { IfOk result (λ shapes. shapes_of shapes.items ≡ people_layout) }
{
    let shape = people_shape(alloc)?;
    Ok(vec![in alloc; shape]?)
}

/// The class of the view of the names of people, whose file has a value in each column of each row. It fails where memory runs out.
pub fn names_class(alloc: Global) -> Result<Class, AllocError>
    ensures { IfOk result (λ class. class ≡ names_class) }
{
    let rule = names_rule(alloc)?;
    let plan = plan_view(alloc, &rule, &[label(alloc, "people")?])?;
    class_of(alloc, &plan, &people_shapes(alloc)?)
}
