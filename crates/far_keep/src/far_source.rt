// What names a source of another machine, and the hole of its whole document.
ghost use Rattle.std.specs.Prelude.{◌≡◌, ◌↔◌, IfOk, IsTrue};
ghost use Rattle.far_keep.specs.Names.{is_far_root, is_same};
ghost use Rattle.far_keep.specs.Views.{far_root};

use lxp_core::HoleId;
use mix_tree::{Label, same_label};
use std::alloc::{AllocError, Global};

/// A source of another machine: the source of a number of a server behind two files. Requests are written to one of them, and replies
/// are read from the other.
#[derive(Drop)]
pub struct FarSource {
    pub replies: Label,
    pub requests: Label,
    pub number: u32,
}

impl FarSource {
    /// Another such value, which names the same source.
    pub fn copy(&self, alloc: Global) -> Result<FarSource, AllocError>
        ensures { IfOk result (λ copy. copy ≡ self.now) }
    {
        Ok(FarSource {
            replies: self.replies.copy(alloc)?,
            requests: self.requests.copy(alloc)?,
            number: self.number,
        })
    }
}

/// Whether two values name the same far source: by the same two files and the same number.
pub fn same_far(a: &FarSource, b: &FarSource) -> bool
    ensures test { result ≡ is_same a.now b.now }
    ensures same { IsTrue result ↔ a.now ≡ b.now }
{
    a.number == b.number
        && same_label(&a.replies, &b.replies)
        && same_label(&a.requests, &b.requests)
}

/// The hole that stands for the whole document of a far source, whichever it is.
pub fn far_root() -> HoleId
    ensures { result ≡ far_root }
{
    HoleId {
        words: [u64::MAX, u64::MAX, u64::MAX],
    }
}

/// Whether a hole stands for the whole document of a far source.
pub(crate) fn is_far_root(hole: HoleId) -> bool
    ensures { result ≡ is_far_root hole }
{
    hole.words[0] == u64::MAX && hole.words[1] == u64::MAX && hole.words[2] == u64::MAX
}
