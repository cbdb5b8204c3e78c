// What tells one state of a database's files from another, with no lock held.
use crate::{ReadFault, Reason};
use std::alloc::Global;
use std::fs::{self, File, Metadata};
use std::io::{self, ErrorKind};
use std::os::unix::fs::{FileExt, MetadataExt};
use std::path::PathBuf;

// The offset at which the header of a database has the count of its changes.
const CHANGES: u64 = 24;

// The offset at which the header of a log has the numbers that are new whenever the log is begun again.
const SALTS: u64 = 12;

// What tells one state of a file from another: which file it is, its length, its time of change, and some bytes of its header.
#[derive(Clone, Copy, PartialEq, Eq)]
struct FileStamp {
    device: u64,
    number: u64,
    length: u64,
    seconds: i64,
    nanoseconds: i64,
    // Sixteen bytes of the header, among them those that a writer changes.
    head: [u8; 16],
}

/// A state of the files: of the database, and of its log where it has one.
#[derive(Clone, Copy, PartialEq, Eq)]
pub struct Stamp {
    db: FileStamp,
    log: Option<FileStamp>,
}

// The stamp of a file, with the bytes of its header from an offset on.
fn stamp_of(file: &File, from: u64) -> io::Result<FileStamp> {
    let data = file.metadata()?;
    let mut head = [0; 16];
    let _count = file.read_at(&mut head, from)?;
    Ok(FileStamp {
        device: data.dev(),
        number: data.ino(),
        length: data.len(),
        seconds: data.mtime(),
        nanoseconds: data.mtime_nsec(),
        head,
    })
}

// A path with an ending after it.
fn named(alloc: Global, path: &str, end: &str) -> Result<String, ReadFault> {
    let mut name = String::from_str(alloc, path)?;
    name.push_str(end)?;
    Ok(name)
}

// What stands at a path, where anything does.
fn found_at(rt: &HostRuntime, path: &str) -> io::Result<Option<Metadata>> {
    match fs::metadata(rt, path) {
        Ok(data) => Ok(Some(data)),
        Err(error) if error.kind() == ErrorKind::NotFound => Ok(None),
        Err(error) => Err(error),
    }
}

// Whether a journal may have to be played back: one that is missing, is empty or begins with a zero has nothing.
fn has_journal(rt: &HostRuntime, path: &str) -> io::Result<bool> {
    match found_at(rt, path)? {
        Some(data) if data.is_file() => {
            let journal = File::open(rt, path)?;
            let mut first = [0];
            Ok(journal.read_at(&mut first, 0)? > 0 && first[0] != 0)
        }
        Some(_) => Ok(true),
        None => Ok(false),
    }
}

/// The path with no link in it: a log and a journal stand beside the file itself.
pub fn real_path(rt: &HostRuntime, path: &str) -> io::Result<PathBuf> {
    fs::canonicalize(rt, path)
}

/// Opens a file for reading. Anything but a regular file is a fault.
pub fn open_plain(rt: &HostRuntime, path: &str) -> Result<File, ReadFault> {
    let data = fs::metadata(rt, path)?;
    if !data.is_file() {
        return Err(ReadFault::Failed(Reason::NotRegular));
    }
    Ok(File::open(rt, path)?)
}

/// The log of the database at a path, where there is one.
pub fn open_log(rt: &HostRuntime, alloc: Global, path: &str) -> Result<Option<File>, ReadFault> {
    let name = named(alloc, path, "-wal")?;
    match found_at(rt, name.as_str())? {
        Some(data) if data.is_file() => Ok(Some(File::open(rt, name.as_str())?)),
        Some(_) => Err(ReadFault::Failed(Reason::NotRegular)),
        None => Ok(None),
    }
}

/// The state of the files at a path. A journal is a fault where it may have to be played back, or a writer is at work.
pub fn stamp_at(rt: &HostRuntime, alloc: Global, path: &str) -> Result<Stamp, ReadFault> {
    let journal = named(alloc, path, "-journal")?;
    if has_journal(rt, journal.as_str())? {
        return Err(ReadFault::Failed(Reason::HotJournal));
    }
    let db = stamp_of(&open_plain(rt, path)?, CHANGES)?;
    let log = match open_log(rt, alloc, path)? {
        Some(file) => Some(stamp_of(&file, SALTS)?),
        None => None,
    };
    Ok(Stamp { db, log })
}
