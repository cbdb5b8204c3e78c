// The files of the system.
ghost use Rattle.std.specs.Prelude.{◌≡◌, ◌≤◌, ◌<◌, ◌+◌, ◌^◌, length, string_bytes, None, IfOk, IfSome, OnOk, OnErr, Err};
ghost use Rattle.mix_io.specs.System.{os_files_view};
ghost use Rattle.mix_io.specs.Views.{ReadsOnly, unread};
ghost use Rattle.mix_io.specs.declared.files.ReadAtFault.TheVariants.{OutOfMemory};

use crate::files::furthest_after;
use crate::{Files, ReadAtFault};
use std::alloc::Global;
use std::collections::BTreeMap;
use std::fs::File;
use std::io;
use std::io::{ErrorKind, Read, Seek, SeekFrom};

impl From<io::Error> for ReadAtFault {
    fn from(error: io::Error) -> Self {
        match error.kind() {
            ErrorKind::OutOfMemory => ReadAtFault::OutOfMemory,
            _ => ReadAtFault::Failed,
        }
    }
}

// A file that is open.
#[derive(Drop)]
struct OpenFile {
    path: String,
    file: File,
    // The offset of the byte that is read next.
    next: u64,
}

impl OpenFile {
    // Opens a file at an offset. A pipe can be read from its beginning alone.
    fn open_at(
        alloc: Global,
        rt: &HostRuntime,
        path: &str,
        next: u64,
    ) -> Result<OpenFile, ReadAtFault>
        ensures path { IfOk result (λ file. string_bytes file.path ≡ path.now) }
        ensures next { IfOk result (λ file. file.next ≡ next) }
    {
        let mut file = File::open(rt, path)?;
        if next > 0 {
            file.seek(SeekFrom::Start(next))?;
        }
        let path = String::from_str(alloc, path)?;
        Ok(OpenFile { path, file, next })
    }

    // Reads bytes from where the open file stands.
    fn read(&mut self, room: &mut [u8]) -> Result<usize, ReadAtFault>
        requires { self.old.next + length room.old < 2 ^ 64 }
        ensures bound { IfOk result (λ count. count ≤ length room.new) }
        ensures next { IfOk result (λ count. self.new.next ≡ self.old.next + count) }
        ensures path { self.new.path ≡ self.old.path }
    {
        let count = self.file.read(room)?;
        self.next += count as u64;
        Ok(count)
    }
}

// The file that was read last, while it is open.
#[derive(Drop)]
struct LastFile {
    rt: HostRuntime,
    file: Option<OpenFile>,
}

impl LastFile {
    // The file of a path at an offset: this one where it stands there, else one that is opened.
    fn take_at(&mut self, alloc: Global, path: &str, from: u64) -> Result<OpenFile, ReadAtFault>
        ensures path { IfOk result (λ file. string_bytes file.path ≡ path.now) }
        ensures next { IfOk result (λ file. file.next ≡ from) }
        ensures taken { self.new.file ≡ None }
    {
        if let Some(file) = self.file.take() {
            if file.next == from && file.path.as_str() == path {
                return Ok(file);
            }
        }
        OpenFile::open_at(alloc, &self.rt, path, from)
    }

    // Reads bytes of a path at an offset, once. The file stays open where a byte was read.
    fn read_at(
        &mut self,
        alloc: Global,
        path: &str,
        from: u64,
        room: &mut [u8],
    ) -> Result<usize, ReadAtFault>
        requires { from + length room.old < 2 ^ 64 }
        ensures bound { IfOk result (λ count. count ≤ length room.new) }
        ensures path { IfSome self.new.file (λ file. string_bytes file.path ≡ path.now) }
        ensures next { IfOk result (λ count. IfSome self.new.file (λ file. file.next ≡ from + count)) }
        ensures err { OnErr result (self.new.file ≡ None) }
    {
        let mut file = self.take_at(alloc, path, from)?;
        let count = file.read(room)?;
        if count > 0 {
            self.file = Some(file);
        }
        Ok(count)
    }
}

/// The files of the system. They tell nothing of what they contain.
///
/// The file that was read last stays open for the next read of its path, where that begins at the end of the last. So a file that is read from
/// its beginning to its end may be a pipe, and one that is replaced meanwhile is read to the end as it was. It is closed where a read answers
/// 0 bytes, as at its end, fails, or is of another path or offset. A file is opened anew for each read that doesn't go on so, and
/// there a pipe can be read from offset 0 alone, and gives what it has left.
#[derive(Drop)]
pub struct OsFiles {
    faults: u64,
    // The furthest end of what was read, of each path that was read.
    ends: BTreeMap<String, u64>,
    last: LastFile,
}

impl OsFiles {
    /// The files of the system, as the runtime reaches them.
    pub fn new(rt: HostRuntime) -> OsFiles
        ensures { os_files_view result ≡ unread (λ _. None) }
    {
        let ends = BTreeMap::new(rt.alloc());
        OsFiles {
            faults: 0,
            ends,
            last: LastFile { rt, file: None },
        }
    }

    // How far a path was read.
    fn end_of(&self, path: &str) -> u64
        ensures { result ≡ (os_files_view self.now).furthest path.now }
    {
        self.ends.get(path).copied().unwrap_or(0)
    }

    // Lets a path be read as far as an end; all else stays.
    fn set_end(&mut self, alloc: Global, path: &str, end: u64) -> Result<(), ReadAtFault>
        ensures ok { OnOk result ((os_files_view self.new).furthest path.now ≡ end) }
        ensures err { OnErr result (os_files_view self.new ≡ os_files_view self.old) }
        ensures memory { OnErr result (result ≡ Err OutOfMemory) }
        ensures faults { self.new.faults ≡ self.old.faults }
        ensures others { ReadsOnly path.now (os_files_view self.old) (os_files_view self.new) }
    {
        let path = String::from_str(alloc, path)?;
        self.ends.insert(path, end)?;
        Ok(())
    }
}

impl Files for OsFiles {
    ghost view = { os_files_view };

    /// Refuses an offset so far that the end of `room` would stand at 2^64 or after it.
    fn read_at(
        &mut self,
        alloc: Global,
        path: &str,
        from: u64,
        room: &mut [u8],
    ) -> Result<usize, ReadAtFault> {
        let fault = if from.checked_add(room.len() as u64).is_none() {
            ReadAtFault::Failed
        } else {
            match self.last.read_at(alloc, path, from, room) {
                Ok(count) => {
                    self.set_end(alloc, path, furthest_after(self.end_of(path), from, count))?;
                    return Ok(count);
                }
                Err(fault) => fault,
            }
        };
        if fault == ReadAtFault::Failed {
            self.faults = self.faults.saturating_add(1);
        }
        Err(fault)
    }
}
