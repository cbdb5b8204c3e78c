// Tables that say why a page is not given.
use std::alloc::{AllocError, Global};
use table_keep::{PageAsk, Tables};

/// Tables that say in words why a page is not given.
pub trait PageReasons: Tables {
    /// Why the page that was asked last is not given, where it was asked by `ask` and failed: words for the end of a line. Nothing ties them to what the
    /// table holds, and after a page that was given they mean nothing. `Err`: memory.
    fn reason(&self, alloc: Global, ask: &PageAsk<'_>) -> Result<String, AllocError>;
}
