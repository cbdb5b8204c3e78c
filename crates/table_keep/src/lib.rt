//! Tables whose rows are read page by page: the trait `Tables`, what a page is, tables in memory, and no tables.
#![tactic(auto)]

mod fault;
mod mem_table;
mod mem_tables;
mod no_tables;
mod page;
mod row;
mod tables;

pub use fault::PageFault;
pub use mem_table::MemTable;
pub use mem_tables::MemTables;
pub use no_tables::NoTables;
pub use page::{PageAsk, is_page};
pub use row::{Cell, TableRow};
pub use tables::Tables;
