// Reading a file whole.
ghost use Rattle.std.specs.Prelude.{◌≡◌, ◌≤◌, ◌<◌, List, ℕ, length, vec_len, IfOk, OnOk, IfSome, IsErrOf};
ghost use Rattle.mix_base.specs.Counts.{HasRisen};
ghost use Rattle.mix_io.specs.Views.{KeepsFiles, ReadsOnly};
ghost use Rattle.mix_io.specs.declared.whole.ReadWhole.TheVariants.{OutOfMemory};

use crate::{Files, ReadAtFault};
use std::alloc::{AllocError, Global};
use thiserror::Error;

/// The most bytes that a file which is read whole may have.
pub const WHOLE_LIMIT: usize = 67_108_864;

// How many bytes one read asks for.
const ROOM: usize = 65_536;

/// Why a file was not read whole.
#[derive(Clone, Copy, Debug, PartialEq, Eq, Error)]
pub enum ReadWhole {
    /// A read failed. This comes only where the path's count of faults rose.
    #[error("a read of the file failed")]
    Failed,
    /// The file has more than `WHOLE_LIMIT` bytes.
    #[error("the file is longer than {} bytes", WHOLE_LIMIT)]
    TooLong,
    #[error("memory ran out")]
    OutOfMemory,
}

impl From<AllocError> for ReadWhole {
    ghost from_gives = { λ _ e. e ≡ OutOfMemory };

    fn from(_: AllocError) -> Self {
        ReadWhole::OutOfMemory
    }
}

impl From<ReadAtFault> for ReadWhole {
    ghost use Rattle.mix_io.specs.Whole.{fault_of};

    ghost from_gives = { λ fault e. e ≡ fault_of fault };

    fn from(fault: ReadAtFault) -> Self {
        match fault {
            ReadAtFault::Failed => ReadWhole::Failed,
            ReadAtFault::OutOfMemory => ReadWhole::OutOfMemory,
        }
    }
}

// A list of `count` bytes, all zero.
fn zeros(alloc: Global, count: usize) -> Result<Vec<u8>, AllocError>
    ensures { IfOk result (λ bytes. vec_len bytes ≡ count) }
{
    vec![in alloc; 0; count]
}

/// All bytes of a file. After an error nothing of them is handed out.
pub fn read_whole<F: Files>(alloc: Global, files: &mut F, path: &str) -> Result<Vec<u8>, ReadWhole>
    ensures keeps { KeepsFiles (F.view files.old) (F.view files.new) }
    ensures others { ReadsOnly path.now (F.view files.old) (F.view files.new) }
    ensures ok { IfOk result (λ bytes. IfSome ((F.view files.old).told path.now) (λ contents. bytes.items ≡ contents)) }
    ensures short { IfOk result (λ bytes. vec_len bytes ≤ WHOLE_LIMIT) }
    ensures steady { OnOk result ((p : List ℕ) → (F.view files.new).faults p ≡ (F.view files.old).faults p) }
    ensures failed { IsErrOf result ReadWhole.Failed → HasRisen ((F.view files.old).faults path.now) ((F.view files.new).faults path.now) }
    ensures long { IsErrOf result ReadWhole.TooLong → IfSome ((F.view files.old).told path.now) (λ contents. WHOLE_LIMIT < length contents) }
    ensures far { IsErrOf result ReadWhole.TooLong → WHOLE_LIMIT < (F.view files.new).furthest path.now }
    ensures long_steady { IsErrOf result ReadWhole.TooLong → (p : List ℕ) → (F.view files.new).faults p ≡ (F.view files.old).faults p }
{
    let mut bytes = Vec::new(alloc);
    let mut room = zeros(alloc, ROOM)?;
    'reads: loop {
        let count = files.read_at(alloc, path, bytes.len() as u64, &mut room)?;
        if count == 0 {
            return Ok(bytes);
        }
        if count > WHOLE_LIMIT - bytes.len() {
            return Err(ReadWhole::TooLong);
        }
        bytes.extend_from_slice(&room[..count])?;
    }
}
