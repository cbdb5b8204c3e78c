// Answering the requests of a text.
ghost use Rattle.std.specs.Prelude.{◌≡◌, ◌≤◌, ◌+◌, List, ℕ, IfOk};
ghost use Rattle.wire_text.specs.declared.request.Request.{Request as Asked};
ghost use Rattle.lxp_wire.specs.Answer.{fills_in};
ghost use Rattle.lxp_wire.specs.Stream.{Splits, IsServed};

use crate::answering::answer;
use lxp_core::Weighed;
use std::alloc::{AllocError, Global};
use wire_text::{RequestRead, read_request};

/// How far a text was served: up to where, and whether a bad tag stands there.
#[derive(Clone, Copy)]
pub struct Served {
    pub at: usize,
    pub bad: bool,
}

/// Writes the replies to the requests of a text after what `out` holds, up to one that is not whole or to a bad tag.
pub fn serve<S: Weighed>(
    alloc: Global,
    sources: &mut S,
    text: &[u8],
    out: &mut Vec<u8>,
) -> Result<Served, AllocError>
    ensures came { S.came_from sources.old sources.new }
    ensures fills { (requests : List Asked) (rest : List ℕ) → Splits text.now requests rest
        → (S.view sources.new).fills ≤ (S.view sources.old).fills + fills_in requests }
    ensures served { IfOk result (λ served.
        IsServed (S.view sources.old) (S.view sources.new) text.now out.old.items out.new.items served.at served.bad) }
{
    let mut at = 0;
    loop {
        match read_request(text.split_at(at).1) {
            RequestRead::Got { request, len } => {
                answer(alloc, out, sources, request)?;
                at += len;
            }
            RequestRead::More => return Ok(Served { at, bad: false }),
            RequestRead::BadTag => return Ok(Served { at, bad: true }),
        }
    }
}
