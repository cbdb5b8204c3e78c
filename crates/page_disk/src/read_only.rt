// Files of the system that are only read.
use std::fs::File;
use std::io;
use std::os::unix::fs::FileExt;

// The furthest byte of a file that the system reads.
const FURTHEST: usize = (1 << 63) - 1;

/// A file of the system. No call writes it: what is outside of this module can read it, and nothing else.
pub(crate) struct ReadOnly {
    file: File,
}

impl Drop for ReadOnly {
    fn drop(self) {
        let ReadOnly { file: _ } = self;
    }
}

impl ReadOnly {
    /// The file, to be read.
    pub(crate) fn new(file: File) -> ReadOnly {
        ReadOnly { file }
    }

    /// Fills the room from an offset of the file on; a file that ends before is an error.
    pub(crate) fn fill(&self, from: usize, room: &mut [u8]) -> io::Result<()> {
        let mut done = 0;
        'reads: while done < room.len() {
            let Some(at) = from.checked_add(done) else {
                return Err(io::ErrorKind::InvalidInput.into());
            };
            if at > FURTHEST {
                return Err(io::ErrorKind::InvalidInput.into());
            }
            let count = self.file.read_at(&mut room[done..], at as u64)?;
            if count == 0 {
                return Err(io::ErrorKind::UnexpectedEof.into());
            }
            done += count;
        }
        Ok(())
    }
}
