// What a schema says of a table.
ghost use Rattle.std.specs.Prelude.{◌≡◌, IfOk};

use mix_catalog::{Column, ColumnNames, TableColumns};
use mix_tree::Label;
use std::alloc::{AllocError, Global};

/// What a schema says of a table.
#[derive(Drop)]
pub struct TableShape {
    pub name: Label,
    /// Whether it is of a kind whose rows can be read.
    pub is_read: bool,
    /// The names by which the number of a row is asked, the best of them first.
    pub keys: ColumnNames,
    pub columns: TableColumns,
}

// A copy of labels.
fn copy_labels(alloc: Global, labels: &[Label]) -> Result<Vec<Label>, AllocError>
    ensures { IfOk result (λ copy. copy.items ≡ labels.now) }
{
    let mut copy = Vec::new(alloc);
    for label in labels {
        copy.push(label.copy(alloc)?)?;
    }
    Ok(copy)
}

// A copy of columns.
fn copy_columns(alloc: Global, columns: &[Column]) -> Result<Vec<Column>, AllocError>
    ensures { IfOk result (λ copy. copy.items ≡ columns.now) }
{
    let mut copy = Vec::new(alloc);
    for column in columns {
        copy.push(Column {
            name: column.name.copy(alloc)?,
            never_null: column.never_null,
        })?;
    }
    Ok(copy)
}

impl TableShape {
    /// A copy of what is said of the table.
    pub fn copy(&self, alloc: Global) -> Result<TableShape, AllocError>
        ensures { IfOk result (λ shape. shape ≡ self.now) }
    {
        Ok(TableShape {
            name: self.name.copy(alloc)?,
            is_read: self.is_read,
            keys: ColumnNames::new(copy_labels(alloc, self.keys.as_slice())?),
            columns: TableColumns::new(copy_columns(alloc, self.columns.as_slice())?),
        })
    }
}
