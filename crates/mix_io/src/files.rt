// Files that are read at an offset.
ghost use Rattle.std.specs.Prelude.{◌≡◌, ◌+◌, ◌^◌, ◌<◌, ◌≤◌, List, ℕ, length, IfOk, OnOk, OnErr, IfSome, IsErrOf};
ghost use Rattle.mix_base.specs.Counts.{HasRisen};
ghost use Rattle.mix_io.specs.Contents.{GivesFrom, end_after};
ghost use Rattle.mix_io.specs.Views.{FilesView, KeepsFiles, ReadsOnly};
ghost use Rattle.mix_io.specs.declared.files.ReadAtFault.TheVariants.{OutOfMemory};

use std::alloc::{AllocError, AllocFailed, Global};
use thiserror::Error;

/// Why a read was refused.
#[derive(Clone, Copy, Debug, PartialEq, Eq, Error)]
pub enum ReadAtFault {
    /// The file could not be read. This comes only where its count of faults rose.
    #[error("the read failed")]
    Failed,
    #[error("memory ran out")]
    OutOfMemory,
}

impl From<AllocFailed<(String, u64)>> for ReadAtFault {
    ghost from_gives = { λ _ fault. fault ≡ OutOfMemory };

    fn from(_: AllocFailed<(String, u64)>) -> Self {
        ReadAtFault::OutOfMemory
    }
}

impl From<AllocError> for ReadAtFault {
    ghost from_gives = { λ _ fault. fault ≡ OutOfMemory };

    fn from(_: AllocError) -> Self {
        ReadAtFault::OutOfMemory
    }
}

/// Files by their paths. No call changes what they contain.
pub trait Files {
    /// What a state of the files means.
    ghost view: { Self → FilesView };

    /// Reads bytes from an offset on into the first places of `room`, and answers how many.
    /// Into room that is not empty, 0 bytes mean that the file ends at the offset or before it.
    /// After an error `room` may hold anything.
    fn read_at(
        &mut self,
        alloc: Global,
        path: &str,
        from: u64,
        room: &mut [u8],
    ) -> Result<usize, ReadAtFault>
        ensures keeps { KeepsFiles (view self.old) (view self.new) }
        ensures bound { IfOk result (λ count. count ≤ length room.new) }
        ensures bytes { IfOk result (λ count. IfSome ((view self.old).told path.now) (λ contents. GivesFrom contents from count room.new)) }
        ensures failed { IsErrOf result ReadAtFault.Failed → HasRisen ((view self.old).faults path.now) ((view self.new).faults path.now) }
        ensures steady { OnOk result ((p : List ℕ) → (view self.new).faults p ≡ (view self.old).faults p) }
        ensures end { IfOk result (λ count. (view self.new).furthest path.now ≡ end_after ((view self.old).furthest path.now) from count) }
        ensures end_err { OnErr result ((view self.new).furthest path.now ≡ (view self.old).furthest path.now) }
        ensures others { ReadsOnly path.now (view self.old) (view self.new) };
}

/// The furthest end after a read of `count` bytes at an offset.
pub fn furthest_after(end: u64, from: u64, count: usize) -> u64
    requires { from + count < 2 ^ 64 }
    ensures { result ≡ end_after end from count }
{
    match count {
        0 => end,
        _ => end.max(from + count as u64),
    }
}
