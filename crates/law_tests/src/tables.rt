// As what a table of a catalog is kept.
use crate::labels::is_label;
use mix_catalog::{Column, SourceKind, SourceSpec};

// Whether a column has this name, and is said never to be NULL or not.
fn is_column(column: &Column, name: &str, never_null: bool) -> bool {
    is_label(&column.name, name) && column.never_null == never_null
}

// Whether columns are these three.
fn are_columns(columns: &[Column]) -> bool {
    let [first, second, third] = columns else {
        return false;
    };
    is_column(first, "name", true)
        && is_column(second, "zip", false)
        && is_column(third, "_9", true)
}

// Whether a source is a table as declared.
pub fn is_people(source: &SourceSpec) -> bool {
    let SourceKind::Table {
        file,
        table,
        key,
        columns,
    } = &source.kind
    else {
        return false;
    };
    source.chunk == 2
        && is_label(source.kind.file(), "my people.db")
        && is_label(file, "my people.db")
        && is_label(table, "people")
        && is_label(key, "id")
        && are_columns(columns.as_slice())
}
