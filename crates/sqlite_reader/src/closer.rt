// Which name of a query it is that a schema lacks.
use crate::defaults::is_asked;
use crate::listing::is_table;
use crate::{Query, Reason};
use sqlite_schema::names::same_name;
use sqlite_schema::schema::{Schema, Table};

// The reason for a name that a table lacks: the key, or a column by its place; another reason as it is.
fn lacking(table: &Table, query: &Query<'_>, reason: Reason) -> Reason {
    if !is_asked(table, query.key) {
        return Reason::NoKey;
    }
    match query.columns.iter().position(|name| !is_asked(table, name)) {
        Some(at) => Reason::NoColumn(at),
        None => reason,
    }
}

// The reason for a name that no table which is read has: another table has it, or nothing.
fn unlisted(schema: &Schema, name: &[u8], reason: Reason) -> Reason {
    match schema
        .views
        .as_slice()
        .iter()
        .find(|kept| same_name(kept.name.as_slice(), name))
    {
        Some(kept) if is_table(kept) => Reason::OtherTable,
        Some(_) => reason,
        None => Reason::NoTable,
    }
}

/// The reason of a query that failed for a reason, with the name that the schema lacks, where it lacks one.
pub fn closer(schema: &Schema, query: &Query<'_>, reason: Reason) -> Reason {
    match reason {
        Reason::NoTable | Reason::LateView | Reason::NotAnswered | Reason::NoName => {
            let tables = schema.tables.as_slice();
            match tables.iter().find(|table| table.is_named(query.table)) {
                Some(table) => lacking(table, query, reason),
                None => unlisted(schema, query.table, reason),
            }
        }
        reason => reason,
    }
}
