//! Catalogs: which sources there are, by the lines of a text.
#![tactic(auto)]

mod after;
mod catalog;
mod column;
mod columns;
mod fault;
mod form;
mod line;
mod reading;
mod remote;
mod source;
mod table;

pub use catalog::Catalog;
pub use column::{Column, ColumnList, ColumnNames, TableColumns};
pub use fault::CatalogFault;
pub use reading::read_catalog;
pub use source::{SourceKind, SourceSpec};
