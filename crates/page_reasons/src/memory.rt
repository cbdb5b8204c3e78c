// What tables in memory say of a page that is not given.
use crate::PageReasons;
use std::alloc::{AllocError, Global};
use table_keep::{MemTables, PageAsk};

// Why a page of a table in memory is not given: its clauses name each cause, and the words none.
const UNREAD: &str = "the page could not be read";

impl PageReasons for MemTables {
    fn reason(&self, alloc: Global, _: &PageAsk<'_>) -> Result<String, AllocError> {
        String::from_str(alloc, UNREAD)
    }
}
