// What an explanation comes to, and that of a file which is refused.
ghost use Rattle.std.specs.Prelude.{◌≡◌, ◌++◌, IfOk};
ghost use Rattle.mix_explain.specs.Explained.{IsRefusalOf, IsUnreadFor};

use mix_io::ReadWhole;
use mix_place::{FileFault, Refusal, Stop, refused};
use std::alloc::{AllocError, Global};

/// What an explanation comes to: the exit status, and the lines that are to be written.
#[derive(Drop)]
pub struct Explained {
    pub status: u8,
    pub lines: Vec<u8>,
}

/// What came of a file: what it spells, or why it is refused.
#[derive(Drop)]
pub enum Answer<A> {
    Accepted(A),
    Refused(Explained),
}

/// The explanation of a file that is refused for a fault: the refusal's own line, and words after it. `Err`: memory.
pub fn refusal_with(
    alloc: Global,
    path: &str,
    fault: FileFault,
    words: &[u8],
) -> Result<Explained, AllocError>
    ensures { IfOk result (IsRefusalOf path.now fault words.now) }
{
    let Stop::Refused(Refusal { status, line }) = refused(alloc, path, fault) else {
        return Err(AllocError);
    };
    let mut lines = Vec::from_slice(alloc, line.as_bytes())?;
    lines.extend_from_slice(words)?;
    Ok(Explained { status, lines })
}

/// The explanation of a file that isn't read whole: the refusal's own line alone. `Err`: memory.
pub fn unread(alloc: Global, path: &str, fault: ReadWhole) -> Result<Explained, AllocError>
    ensures { IfOk result (IsUnreadFor path.now fault) }
{
    match fault {
        ReadWhole::Failed => refusal_with(alloc, path, FileFault::Unread, b""),
        ReadWhole::TooLong => refusal_with(alloc, path, FileFault::TooLong, b""),
        ReadWhole::OutOfMemory => Err(AllocError),
    }
}
