//! Pages of the tables of SQLite files, and which tables these have.
#![tactic(auto)]

mod cells;
mod files;
mod misfit;
mod reason;
mod schemas;
mod tables;

pub use schemas::SqliteSchemas;
pub use tables::SqliteTables;
