//! The command `describe`: lines of a catalog for a file that is there, a CSV file or a database of SQLite.
#![tactic(auto)]

mod call;
mod described;
mod file;
mod reading;

pub use call::mixq_describe;
