// The columns that a catalog declares.
ghost use Rattle.std.specs.Prelude.{◌≡◌, map, IfOk};
ghost use Rattle.std.specs.List.{list_any};
ghost use Rattle.std.specs.Str.{bytes_eq};
ghost use Rattle.mix_catalog.specs.Columns.{are_apart};

use mix_tree::{Label, same_label};
use std::alloc::{AllocError, Global};
use std::marker::Model;

/// A column of a table.
#[derive(Drop)]
pub struct Column {
    pub name: Label,
    /// Whether no row has NULL there.
    pub never_null: bool,
}

// Whether a column has the name of one of these.
fn is_named_among(column: &Column, others: &[Column]) -> bool
    ensures { result ≡ list_any (λ c. bytes_eq column.now.name c.name) others.now }
{
    others
        .iter()
        .any(|other| same_label(&column.name, &other.name))
}

/// Whether no column has the name of one after it.
pub fn are_named_apart(columns: &[Column]) -> bool
    ensures { result ≡ are_apart (map (λ c. c.name) columns.now) }
{
    match columns {
        [] => true,
        [first, others @ ..] => !is_named_among(first, others) && are_named_apart(others),
    }
}

/// Columns in their order, seen as their list.
#[derive(Drop)]
pub struct ColumnList<T> {
    columns: Vec<T>,
}

/// The names of the columns of a CSV file.
pub type ColumnNames = ColumnList<Label>;

/// The columns of a table.
pub type TableColumns = ColumnList<Column>;

impl<T> Model for ColumnList<T> {
    ghost use Rattle.std.specs.Prelude.{List};

    ghost Value = { List T };

    ghost view = { λ c. c.columns.items };
}

impl<T> ColumnList<T> {
    /// The list of these columns.
    pub fn new(columns: Vec<T>) -> ColumnList<T>
        ensures { result ≡ columns.items }
    {
        ColumnList { columns }
    }

    /// The columns, in their order.
    pub fn as_slice(&self) -> &[T]
        ensures { result.now ≡ self.now }
    {
        &self.columns
    }
}

/// A copy of the names.
pub(crate) fn copy_names(alloc: Global, names: &ColumnNames) -> Result<ColumnNames, AllocError>
    ensures { IfOk result (λ copy. copy ≡ names.now) }
{
    let mut copy = Vec::new(alloc);
    for name in names.as_slice() {
        copy.push(name.copy(alloc)?)?;
    }
    Ok(ColumnNames::new(copy))
}

/// A copy of the columns.
pub(crate) fn copy_columns(
    alloc: Global,
    columns: &TableColumns,
) -> Result<TableColumns, AllocError>
    ensures { IfOk result (λ copy. copy ≡ columns.now) }
{
    let mut copy = Vec::new(alloc);
    for column in columns.as_slice() {
        copy.push(Column {
            name: column.name.copy(alloc)?,
            never_null: column.never_null,
        })?;
    }
    Ok(TableColumns::new(copy))
}
