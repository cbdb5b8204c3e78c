// What dials links over two files of the system.
ghost use Rattle.std.specs.Prelude.{◌≡◌, IfOk};

use far_links::Dial;
use file_link::FileLink;
use mix_tree::Label;
use std::alloc::{AllocError, Global};
use std::str;

/// What dials links over two files of the system, whose paths are the names of the files.
#[derive(Drop)]
pub struct FileDial {
    rt: HostRuntime,
}

impl FileDial {
    /// What dials links over files of this system.
    pub fn new(rt: HostRuntime) -> FileDial {
        FileDial { rt }
    }
}

// The path that a label is.
fn path_of(alloc: Global, file: &Label) -> Result<String, AllocError> {
    match str::from_utf8(file.bytes()) {
        Ok(path) => String::from_str(alloc, path),
        Err(_) => unreachable!(),
    }
}

impl Dial<FileLink> for FileDial {
    ghost use Rattle.file_link.specs.FileLinks.{file_link_view, fresh_view, IsClosed};

    /// A link over two files, of which none is opened yet: the first request opens both.
    fn dial(&self, alloc: Global, replies: &Label, requests: &Label) -> Result<FileLink, AllocError>
        ensures view { IfOk result (λ link. file_link_view link ≡ fresh_view) }
        ensures closed { IfOk result (λ link. IsClosed link) }
    {
        let replies = path_of(alloc, replies)?;
        let requests = path_of(alloc, requests)?;
        Ok(FileLink::new(self.rt, replies, requests))
    }
}
