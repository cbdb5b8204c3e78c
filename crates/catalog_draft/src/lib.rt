//! Lines of catalogs for files that are there: for the header of a CSV file, and for the tables of a schema.
#![tactic(auto)]

mod columns;
mod field;
mod header;
mod law;
mod lines;
mod names;
mod reasons;
mod records;
mod tables;

pub use field::{HeaderField, header_field};
pub use header::describe_csv;
pub use law::{headers_are_read, tables_are_read};
pub use tables::describe_tables;
