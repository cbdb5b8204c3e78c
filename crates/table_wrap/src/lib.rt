//! Documents of tables: the rows of a table as a source, asked for page by page.
#![tactic(auto)]

mod cells;
mod document;
mod giving;
mod parts;
mod wire;

pub use document::TableDoc;
