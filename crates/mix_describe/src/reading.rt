// The bytes of a file that is no database, and whether it is one.
ghost use Rattle.std.specs.Prelude.{◌≡◌, ◌≤◌, ◌<◌, List, ℕ, length, vec_len, IfOk, IfSome, IsErrOf, IsTrue, false};
ghost use Rattle.mix_base.specs.Counts.{HasRisen};
ghost use Rattle.mix_io.specs.Views.{KeepsFiles, ReadsOnly};
ghost use Rattle.mix_describe.specs.Kinds.{IsContent, begins_as_database};

use mix_io::{Files, ReadWhole, WHOLE_LIMIT};
use std::alloc::{AllocError, Global};

// The bytes with which a database of SQLite begins.
const MARK: &[u8] = b"SQLite format 3\0";

// How many bytes one read asks for.
const ROOM: usize = 65_536;

/// What a file is by the bytes with which it begins.
#[derive(Drop)]
pub enum Content {
    /// It is no database, and these are all its bytes.
    Text(Vec<u8>),
    /// It begins as a database of SQLite does.
    Database,
}

// A list of `count` bytes, all zero.
fn zeros(alloc: Global, count: usize) -> Result<Vec<u8>, AllocError>
    ensures { IfOk result (λ bytes. vec_len bytes ≡ count) }
{
    vec![in alloc; 0; count]
}

// Whether bytes begin as a database of SQLite does.
fn begins_as_database(bytes: &[u8]) -> bool
    ensures value { result ≡ begins_as_database bytes.now }
    ensures bound { IsTrue result → 16 ≤ length bytes.now }
{
    bytes.starts_with(MARK)
}

/// All bytes of a file, where it doesn't begin as a database does; of a database no more is read. The errors are those of `read_whole`.
pub fn read_content<F: Files>(
    alloc: Global,
    files: &mut F,
    path: &str,
) -> Result<Content, ReadWhole>
    ensures keeps { KeepsFiles (F.view files.old) (F.view files.new) }
    ensures others { ReadsOnly path.now (F.view files.old) (F.view files.new) }
    ensures ok { IfOk result (IsContent (F.view files.old) path.now) }
    ensures failed { IsErrOf result ReadWhole.Failed → HasRisen ((F.view files.old).faults path.now) ((F.view files.new).faults path.now) }
    ensures long { IsErrOf result ReadWhole.TooLong → IfSome ((F.view files.old).told path.now) (λ contents. WHOLE_LIMIT < length contents) }
    ensures none { IsErrOf result ReadWhole.TooLong → IfSome ((F.view files.old).told path.now) (λ contents. begins_as_database contents ≡ false) }
    ensures far { IsErrOf result ReadWhole.TooLong → WHOLE_LIMIT < (F.view files.new).furthest path.now }
    ensures long_steady { IsErrOf result ReadWhole.TooLong → (p : List ℕ) → (F.view files.new).faults p ≡ (F.view files.old).faults p }
{
    let mut bytes = Vec::new(alloc);
    let mut room = zeros(alloc, ROOM)?;
    'reads: loop {
        if begins_as_database(&bytes) {
            return Ok(Content::Database);
        }
        let count = files.read_at(alloc, path, bytes.len() as u64, &mut room)?;
        if count == 0 {
            return Ok(Content::Text(bytes));
        }
        if count > WHOLE_LIMIT - bytes.len() {
            return Err(ReadWhole::TooLong);
        }
        bytes.extend_from_slice(&room[..count])?;
    }
}
