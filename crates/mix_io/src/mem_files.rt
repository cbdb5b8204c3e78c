// Files in memory, which fail at the reads that a list names.
ghost use Rattle.std.specs.Prelude.{◌≡◌, ◌≤◌, ◌↔◌, ℕ, length, IsTrue, Contains, IfOk};
ghost use Rattle.mix_io.specs.Contents.{GivesFrom};

use crate::files::furthest_after;
use crate::{Files, ReadAtFault};
use std::alloc::{AllocError, Global};
use std::collections::BTreeSet;

/// A file in memory.
#[derive(Debug, Drop)]
pub struct MemFile {
    pub path: String,
    pub bytes: Vec<u8>,
}

/// Files in memory. Of two files of one path the first counts.
/// A read fails where a list names it, counted from 1, and at a path without a file.
#[derive(Debug, Drop)]
pub struct MemFiles {
    files: Vec<MemFile>,
    failing: BTreeSet<u64>,
    calls: u64,
    faults: u64,
    // The furthest end of each file.
    ends: Vec<u64>,
    ghost one_each: { length ends.items ≡ length files.items },
}

impl MemFiles {
    ghost use Rattle.mix_io.specs.Memory.{contents_at, fails_at, index_at_call, is_at, mem_files_view};
    ghost use Rattle.std.specs.List.{position};
    ghost use Rattle.mix_io.specs.Views.{unread};

    /// Files in memory that fail at the reads whose numbers `failing` names, counted from 1.
    pub fn new(
        alloc: Global,
        files: Vec<MemFile>,
        failing: Vec<u64>,
    ) -> Result<MemFiles, AllocError>
        ensures view { IfOk result (λ m. mem_files_view m ≡ unread (contents_at files.items)) }
        ensures failing { IfOk result (λ m. (call : ℕ) → IsTrue (fails_at m call) ↔ Contains failing.items call) }
    {
        let ends = vec![in alloc; 0; files.len()]?;
        Ok(MemFiles {
            files,
            failing: failing.into_iter().collect(alloc)?,
            calls: 0,
            faults: 0,
            ends,
        })
    }

    // The file that the call of a number reads: none where it is to fail, or no file has the path.
    fn index_at_call(&self, call: u64, path: &str) -> Option<usize>
        ensures { result ≡ index_at_call self.now call path.now }
    {
        if self.failing.contains(&call) {
            return None;
        }
        MemFiles::index_of(&self.files, path)
    }

    // The index of the first file of a path, where there is one.
    fn index_of(files: &[MemFile], path: &str) -> Option<usize>
        ensures { result ≡ position (is_at path.now) files.now }
    {
        files.iter().position(|file| file.path.as_str() == path)
    }
}

// Copies the bytes from an offset on, as many as there is room for.
fn copy_from(bytes: &[u8], from: u64, room: &mut [u8]) -> usize
    ensures bound { result ≤ length room.new }
    ensures gives { GivesFrom bytes.now from result room.new }
{
    if from >= bytes.len() as u64 {
        return 0;
    }
    let rest = &bytes[from as usize..];
    let count = rest.len().min(room.len());
    room[..count].copy_from_slice(&rest[..count]);
    count
}

impl Files for MemFiles {
    ghost use Rattle.std.specs.Prelude.{◌≡◌, ◌≤◌, ℕ, List, None, length, IfOk, IfSome, OnOk, OnErr, IsErrOf};
    ghost use Rattle.mix_base.specs.Counts.{HasRisen};
    ghost use Rattle.mix_io.specs.Contents.{GivesFrom, end_after};
    ghost use Rattle.mix_io.specs.Memory.{mem_files_view, reads_of, next_read, next_contents, fails_at};
    ghost use Rattle.mix_io.specs.Views.{KeepsFiles, ReadsOnly};

    ghost view = { mem_files_view };

    fn read_at(
        &mut self,
        _alloc: Global,
        path: &str,
        from: u64,
        room: &mut [u8],
    ) -> Result<usize, ReadAtFault>
        ensures keeps { KeepsFiles (mem_files_view self.old) (mem_files_view self.new) }
        ensures bound { IfOk result (λ count. count ≤ length room.new) }
        ensures bytes { IfOk result (λ count. IfSome ((mem_files_view self.old).told path.now) (λ contents. GivesFrom contents from count room.new)) }
        ensures failed { IsErrOf result ReadAtFault.Failed → HasRisen ((mem_files_view self.old).faults path.now) ((mem_files_view self.new).faults path.now) }
        ensures steady { OnOk result ((p : List ℕ) → (mem_files_view self.new).faults p ≡ (mem_files_view self.old).faults p) }
        ensures end { IfOk result (λ count. (mem_files_view self.new).furthest path.now ≡ end_after ((mem_files_view self.old).furthest path.now) from count) }
        ensures end_err { OnErr result ((mem_files_view self.new).furthest path.now ≡ (mem_files_view self.old).furthest path.now) }
        ensures others { ReadsOnly path.now (mem_files_view self.old) (mem_files_view self.new) }
        // Which reads fail: those that the list names, and those of a path without a file.
        ensures named { OnErr result (next_contents self.old path.now ≡ None) }
        ensures fails { next_contents self.old path.now ≡ None → IsErrOf result ReadAtFault.Failed }
        ensures counted { reads_of self.new ≡ next_read self.old }
        ensures list { (call : ℕ) → fails_at self.new call ≡ fails_at self.old call }
    {
        self.calls = self.calls.saturating_add(1);
        let Some(index) = self.index_at_call(self.calls, path) else {
            self.faults = self.faults.saturating_add(1);
            return Err(ReadAtFault::Failed);
        };
        let count = copy_from(&self.files[index].bytes, from, room);
        self.ends[index] = furthest_after(self.ends[index], from, count);
        Ok(count)
    }
}
