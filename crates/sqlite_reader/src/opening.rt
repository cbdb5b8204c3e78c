// From files to a store over them, with no page read but those of the schema.
use crate::layout::{lay_out, without_roots};
use crate::{ReadFault, Reason};
use page_disk::PageDisk;
use sqlite_disk::Files;
use sqlite_pager::{Options, Pager};
use sqlite_schema::schema::Schema;
use sqlite_store::{FileStore, Unopened};
use sqlite_wal::{PageSize, probe_page_size};
use std::alloc::Global;

// How many bytes of pages are kept in memory.
const CACHE: usize = 1 << 23;

// The size of a page as the files have it; files that have none are a fault.
fn page_size(files: &mut Files<PageDisk>) -> Result<PageSize, ReadFault> {
    match probe_page_size(files)? {
        Some(size) => Ok(size),
        None => Err(ReadFault::Failed(Reason::NoDatabase)),
    }
}

// The store over the files with no page read, which keeps `CACHE` bytes of pages.
fn unopened(alloc: Global, mut files: Files<PageDisk>) -> Result<Unopened<PageDisk>, ReadFault> {
    let size = page_size(&mut files)?;
    let options = Options {
        cache_pages: CACHE / size.bytes().max(512),
        spill_pages: 1,
        checkpoint_frames: usize::MAX,
        seed: 1,
    };
    let pager = Pager::new(alloc, files, size, options)?;
    Ok(Unopened::new(alloc, pager, &[])?)
}

// The schema that the files list, which is told to the store; a list that it doesn't take is a fault.
fn list(alloc: Global, files: &mut Unopened<PageDisk>) -> Result<Schema, ReadFault> {
    let listed = files.read_catalog()?;
    let roots = files.index_roots(listed.as_slice())?;
    let rows = without_roots(alloc, listed.as_slice())?;
    let (schema, kinds) = lay_out(alloc, rows.as_slice(), roots.as_slice())?;
    match files.list_schema(rows.as_slice(), kinds.as_slice()) {
        Ok(true) => Ok(schema),
        Ok(false) => Err(ReadFault::Failed(Reason::OtherKind)),
        Err(error) => Err(error.into()),
    }
}

// The store with its schema taken as it was listed.
fn opened(fresh: Unopened<PageDisk>) -> Result<FileStore<PageDisk>, ReadFault> {
    match fresh.open_trusted() {
        Ok(store) => Ok(store),
        Err((error, files)) => {
            // The files are given to `drop`, so that how their parts are dropped is proved once.
            drop(files);
            Err(error.into())
        }
    }
}

/// The store over the files, and its schema.
pub fn open_store(
    alloc: Global,
    files: Files<PageDisk>,
) -> Result<(FileStore<PageDisk>, Schema), ReadFault> {
    let mut fresh = unopened(alloc, files)?;
    match list(alloc, &mut fresh) {
        Ok(schema) => Ok((opened(fresh)?, schema)),
        Err(fault) => {
            drop(fresh);
            Err(fault)
        }
    }
}
