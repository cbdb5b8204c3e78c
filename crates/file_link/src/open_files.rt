// The two files of a link while they are open.
ghost use Rattle.std.specs.Prelude.{◌<◌, length, IfOk};
ghost use Rattle.file_link.specs.Receiving.{IsWhole};

use crate::loss::Loss;
use crate::receiving::receive;
use lxp_wire::LinkFault;
use std::alloc::Global;
use std::fs::{File, OpenOptions};
use std::io;
use std::io::{ErrorKind, Write};

// How many bytes a piece of a reply has at most.
const PIECE: usize = 65_536;

/// The two files of a link, and the room for a piece of a reply.
#[derive(Drop)]
pub struct OpenFiles {
    requests: File,
    replies: File,
    room: Vec<u8>,
    ghost some: { 0 < length room.items },
}

// The fault that a file which isn't opened becomes.
fn open_fault(error: &io::Error) -> LinkFault {
    match error.kind() {
        ErrorKind::OutOfMemory => LinkFault::OutOfMemory,
        _ => LinkFault::Failed,
    }
}

// Opens the file of requests, which must be there, for writing, and then that of replies for reading.
fn open_both(rt: &HostRuntime, requests: &str, replies: &str) -> Result<(File, File), LinkFault> {
    let requests = match OpenOptions::new().write(true).open(rt, requests) {
        Ok(file) => file,
        Err(error) => return Err(open_fault(&error)),
    };
    match File::open(rt, replies) {
        Ok(replies) => Ok((requests, replies)),
        Err(error) => Err(open_fault(&error)),
    }
}

impl OpenFiles {
    /// Opens both files. Where one isn't opened, both are closed.
    pub fn open(
        alloc: Global,
        rt: &HostRuntime,
        requests: &str,
        replies: &str,
    ) -> Result<OpenFiles, LinkFault> {
        let Ok(room) = vec![in alloc; 0u8; PIECE] else {
            return Err(LinkFault::OutOfMemory);
        };
        let (requests, replies) = open_both(rt, requests, replies)?;
        Ok(OpenFiles {
            requests,
            replies,
            room,
        })
    }

    /// Writes a request and reads its reply.
    pub fn exchange(&mut self, alloc: Global, request: &[u8]) -> Result<Vec<u8>, Loss>
        ensures { IfOk result (λ reply. IsWhole reply.items) }
    {
        if self.requests.write_all(request).is_err() {
            return Err(Loss::Unsent);
        }
        receive(alloc, &mut self.replies, &mut self.room)
    }
}
