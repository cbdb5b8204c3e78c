//! Rows of the tables of an SQLite file, which is only read, and by pages.
#![tactic(auto)]

mod closer;
mod defaults;
mod fault;
mod layout;
mod listing;
mod opening;
mod query;
mod reader;
mod reason;
mod stamp;

pub use fault::ReadFault;
pub use listing::{ListedColumn, ListedTable};
pub use query::Query;
pub use reader::Reader;
pub use reason::Reason;
