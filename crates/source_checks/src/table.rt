// What is said of the table of a source.
ghost use Rattle.std.specs.Prelude.{◌≡◌, IfOk};
ghost use Rattle.source_checks.specs.Checks.{SaysTable};
ghost use Rattle.source_checks.specs.Words.{unread_words};
ghost use Rattle.table_keep.specs.Views.{KeepsTables, declared_by};

use crate::words::source_line;
use mix_catalog::SourceSpec;
use page_reasons::PageReasons;
use std::alloc::{AllocError, Global};
use table_keep::{PageAsk, PageFault};

// The words of a table that gives a page.
const PAGE_READ: &[u8] = b"a page of its table can be read\n";

// The words of a table that gives no page, with the reason that its adapter has.
fn unread_words(alloc: Global, reason: &str) -> Result<Vec<u8>, AllocError>
    ensures { IfOk result (λ words. words.items ≡ unread_words reason.now) }
{
    let mut words = Vec::from_slice(alloc, b"no page of its table can be read: ")?;
    words.extend_from_slice(reason.as_bytes())?;
    words.extend_from_slice(b"\n")?;
    Ok(words)
}

/// The lines of a source that is a table, of which one page is asked: whether it is given, and the adapter's reason only where it isn't. `Err`: memory.
pub fn table_lines<T: PageReasons>(
    alloc: Global,
    tables: &mut T,
    spec: &SourceSpec,
    ask: &PageAsk<'_>,
) -> Result<Vec<u8>, AllocError>
    ensures keeps { KeepsTables (T.view tables.old) (T.view tables.new) }
    ensures ok { IfOk result (λ lines. SaysTable (declared_by ask.now) spec.now (T.view tables.old) (T.view tables.new) lines.items) }
{
    match tables.page(alloc, ask) {
        Ok(rows) => {
            drop(rows);
            source_line(alloc, spec, PAGE_READ)
        }
        Err(PageFault::Failed) => {
            let reason = tables.reason(alloc, ask)?;
            let words = unread_words(alloc, &reason)?;
            source_line(alloc, spec, &words)
        }
        Err(PageFault::OutOfMemory) => Err(AllocError),
    }
}
