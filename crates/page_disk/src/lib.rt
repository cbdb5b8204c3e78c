//! A file that is only read, and a log in memory, as the disks of a database.
#![tactic(auto)]

ghost use Rattle.std.specs.Prelude.{◌≡◌, true, false, refl, is_ok, length, [], OnOk};
ghost use Rattle.page_disk.specs.PageDisk.{bytes_in, shown};
ghost use Rattle.sqlite_disk.specs.Disk.{Cut, CountsFault, Holds, Torn};
ghost use Rattle.sqlite_disk.specs.Refusal.{finds_no_room};

mod read_only;

use read_only::ReadOnly;
use sqlite_disk::{Disk, Tally, digest_of};
use std::alloc::{AllocError, Global};
use std::fs::File;
use std::io;

// What a disk reads: a file of the system, or a log in memory.
enum Part {
    // A file of the system, and its length when it was opened.
    Pages(ReadOnly, usize),
    Log(Vec<u8>),
}

impl Drop for Part {
    fn drop(self) {
        match self {
            Part::Pages(_, _) => {}
            Part::Log(_) => {}
        }
    }
}

/// A disk that is a file of the system, which is never written, or bytes in memory. Of what a file holds nothing is told: whoever reads
/// it is safe whatever its bytes are.
pub struct PageDisk {
    part: Part,
    faults: u64,
    caught: u64,
}

// It is written out, so that a crate above does not prove again how each part is dropped.
impl Drop for PageDisk {
    fn drop(self) {
        let PageDisk {
            part: _,
            faults: _,
            caught: _,
        } = self;
    }
}

impl PageDisk {
    /// The file, of this length in bytes. Each write to it is refused, and leaves it as it was.
    pub fn of_file(file: File, length: usize) -> PageDisk
        ensures { shown result ≡ [] }
    {
        PageDisk {
            part: Part::Pages(ReadOnly::new(file), length),
            faults: 0,
            caught: 0,
        }
    }

    /// The log that has these bytes. It is read and written in memory alone.
    pub fn of_log(bytes: Vec<u8>) -> PageDisk
        ensures { shown result ≡ bytes.items }
    {
        PageDisk {
            part: Part::Log(bytes),
            faults: 0,
            caught: 0,
        }
    }
}

// Copies the bytes from an offset on; where fewer are there than room, that is an error.
fn copy(bytes: &[u8], from: usize, room: &mut [u8]) -> io::Result<()> {
    if from > bytes.len() || room.len() > bytes.len() - from {
        return Err(io::ErrorKind::UnexpectedEof.into());
    }
    room.copy_from_slice(&bytes[from..from + room.len()]);
    Ok(())
}

// Fills the room with the bytes from an offset on; where fewer are there, that is an error.
fn read(part: &Part, from: usize, room: &mut [u8]) -> io::Result<()> {
    match part {
        Part::Pages(file, _) => file.fill(from, room),
        Part::Log(bytes) => copy(bytes.as_slice(), from, room),
    }
}

// Cuts a log to a length, or makes it that long with zeros.
fn resize(log: &mut Vec<u8>, len: usize) -> Result<(), AllocError>
    ensures len { OnOk result (length log.new.items ≡ len) }
    ensures others { Cut len log.old.items log.new.items }
{
    log.resize(len, 0)
}

// Writes bytes into a log from a place on, and makes it longer where it ends before.
fn overwrite(log: &mut Vec<u8>, at: usize, bytes: &[u8]) -> Result<(), AllocError>
    ensures written { OnOk result (Holds log.new.items at bytes.now) }
    ensures others { Torn at (length bytes.now) log.old.items log.new.items }
{
    let end = at.checked_add(bytes.len()).ok_or(AllocError)?;
    if end > log.len() {
        resize(log, end)?;
    }
    log[at..end].copy_from_slice(bytes);
    Ok(())
}

// A file takes no bytes; a log takes them.
fn put(part: &mut Part, at: usize, bytes: &[u8]) -> Result<(), AllocError>
    ensures written { OnOk result (Holds (bytes_in part.new) at bytes.now) }
    ensures others { Torn at (length bytes.now) (bytes_in part.old) (bytes_in part.new) }
{
    match part {
        Part::Pages(_, _) => Err(AllocError),
        Part::Log(log) => overwrite(log, at, bytes),
    }
}

// Gives a log another length; a file is refused.
fn cut(part: &mut Part, len: usize) -> Result<(), AllocError>
    ensures len { OnOk result (length (bytes_in part.new) ≡ len) }
    ensures others { Cut len (bytes_in part.old) (bytes_in part.new) }
{
    match part {
        Part::Pages(_, _) => Err(AllocError),
        Part::Log(log) => resize(log, len),
    }
}

// Counts a write that was refused.
fn count(outcome: Result<(), AllocError>, faults: &mut u64) -> io::Result<()>
    ensures variant { is_ok result ≡ is_ok outcome }
    ensures kind { finds_no_room result ≡ false }
    ensures faults { CountsFault result faults.old faults.new }
{
    if outcome.is_err() {
        *faults = faults.saturating_add(1);
        return Err(io::Error::from(io::ErrorKind::PermissionDenied));
    }
    Ok(())
}

// Counts a read that failed.
fn count_read(outcome: io::Result<()>, faults: &mut u64) -> io::Result<()>
    ensures variant { is_ok result ≡ is_ok outcome }
    ensures faults { CountsFault result faults.old faults.new }
{
    if outcome.is_err() {
        *faults = faults.saturating_add(1);
    }
    outcome
}

impl Disk for PageDisk {
    ghost seen = { shown };

    ghost may_leave = { λ disk bytes. bytes ≡ shown disk };

    ghost is_usable = { λ _. true };

    ghost faults = { λ disk. disk.faults };

    ghost tally_of = { λ disk. record { caught = disk.caught; refused = 0 } };

    // Nothing is claimed of what a file holds.
    ghost is_clean = { λ _. false };

    ghost key_of = { λ _. 0 };

    ghost is_fair = { λ _ _. true };

    ghost fair_if_clean = { λ _ _ _. refl };

    ghost seen_may_stay = { λ _. refl };

    fn mixes(&self) -> bool {
        false
    }

    fn key(&self) -> u64 {
        0
    }

    fn tally(&self) -> Tally {
        Tally {
            caught: self.caught,
            refused: 0,
        }
    }

    fn may_be_used(&self) -> bool {
        true
    }

    /// The length of a file is that which it had when it was opened.
    fn len(&mut self) -> io::Result<usize> {
        match &self.part {
            Part::Pages(_, length) => Ok(*length),
            Part::Log(bytes) => Ok(bytes.len()),
        }
    }

    fn read_at(&mut self, at: usize, buf: &mut [u8]) -> io::Result<()> {
        count_read(read(&self.part, at, buf), &mut self.faults)
    }

    fn read_checked(&mut self, key: u64, want: u64, at: usize, buf: &mut [u8]) -> io::Result<()> {
        count_read(read(&self.part, at, buf), &mut self.faults)?;
        if digest_of(key, buf) != want {
            self.faults = self.faults.saturating_add(1);
            self.caught = self.caught.saturating_add(1);
            return Err(io::ErrorKind::InvalidData.into());
        }
        Ok(())
    }

    /// Refused of a file.
    fn write_at(&mut self, at: usize, bytes: &[u8]) -> io::Result<()> {
        count(put(&mut self.part, at, bytes), &mut self.faults)
    }

    /// Refused of a file.
    fn set_len(&mut self, len: usize) -> io::Result<()> {
        count(cut(&mut self.part, len), &mut self.faults)
    }

    // Nothing is kept, so nothing has to reach a disk.
    fn sync(&mut self) -> io::Result<()> {
        Ok(())
    }
}
