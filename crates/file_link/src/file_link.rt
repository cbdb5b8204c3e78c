// A link over two files of the system.
ghost use Rattle.std.specs.Prelude.{◌≡◌, ◌≤◌, ◌+◌, true, IfOk, IsErr, OnOk, OnErr, IsErrOf};
ghost use Rattle.mix_base.specs.Counts.{HasRisen};
ghost use Rattle.file_link.specs.Losses.{fault_of};

use crate::loss::Loss;
use crate::open_files::OpenFiles;
use lxp_wire::{Link, LinkFault};
use std::alloc::Global;
use std::mem;

// Whether the files of a link are open.
#[derive(Drop)]
enum State {
    // Neither file is open. The next request opens both.
    Closed,
    // Both are open, and the next reply begins with the next byte that is read.
    Open(OpenFiles),
    // Neither file is open, and none is opened again.
    Broken,
}

/// A link over two files of the system, which may be named pipes: requests are written into one, and replies are read from the other.
/// It tells no sources.
///
/// The first request opens both files, that of requests first. A named pipe is opened where its other side is, and a reply is waited for.
/// No file is created or cut.
///
/// A file that isn't opened, a request that isn't written, and replies that end before a whole one came are faults that close both files;
/// the next request opens them anew. After any other fault the replies may stand inside one, or hold bytes of an old one: where a byte came
/// with which no reply goes on, bytes came behind a whole reply, a reply is longer than 67,108,864 bytes, a read failed, or memory ran out
/// inside a reply. There the link is broken for good: both files are closed, and each further request is a fault.
#[derive(Drop)]
pub struct FileLink {
    rt: HostRuntime,
    replies: String,
    requests: String,
    state: State,
    given: u64,
    faults: u64,
    last: Vec<u8>,
}

impl FileLink {
    ghost use Rattle.file_link.specs.FileLinks.{file_link_view, fresh_view, IsClosed, IsBroken, IsOpenState, Settles};
    ghost use Rattle.file_link.specs.Receiving.{IsWhole};

    /// A link that reads replies from the file of the first path and writes requests into that of the second. Nothing is opened yet.
    pub fn new(rt: HostRuntime, replies: String, requests: String) -> FileLink
        ensures view { file_link_view result ≡ fresh_view }
        ensures closed { IsClosed result }
    {
        let last = Vec::new(rt.alloc());
        FileLink {
            rt,
            replies,
            requests,
            state: State::Closed,
            given: 0,
            faults: 0,
            last,
        }
    }

    // Takes the open files out of the link, or opens both; what is taken out counts as broken until it is put back.
    fn take_files(&mut self, alloc: Global) -> Result<OpenFiles, LinkFault>
        ensures given { self.new.given ≡ self.old.given }
        ensures faults { self.new.faults ≡ self.old.faults }
        ensures last { self.new.last ≡ self.old.last }
        ensures broken { IsBroken self.old → IsErr result × IsBroken self.new }
        ensures shut { IsOpenState self.new.state → ⊥ }
    {
        match mem::replace(&mut self.state, State::Broken) {
            State::Open(files) => Ok(files),
            State::Broken => Err(LinkFault::Failed),
            State::Closed => {
                let opened = OpenFiles::open(alloc, &self.rt, &self.requests, &self.replies);
                if opened.is_err() {
                    self.state = State::Closed;
                }
                opened
            }
        }
    }

    // Leaves the files in the state that follows from what an exchange over them came to, and answers it.
    fn settle(
        &mut self,
        files: OpenFiles,
        outcome: Result<Vec<u8>, Loss>,
    ) -> Result<Vec<u8>, LinkFault>
        ensures given { self.new.given ≡ self.old.given }
        ensures faults { self.new.faults ≡ self.old.faults }
        ensures last { self.new.last ≡ self.old.last }
        ensures settled { Settles outcome self.new.state result }
    {
        match outcome {
            Ok(reply) => {
                self.state = State::Open(files);
                Ok(reply)
            }
            Err(loss) => {
                self.state = if loss.breaks() {
                    State::Broken
                } else {
                    State::Closed
                };
                Err(fault_of(loss))
            }
        }
    }

    // Writes a request, reads its reply, and leaves the files in the state that follows.
    fn exchange(&mut self, alloc: Global, request: &[u8]) -> Result<Vec<u8>, LinkFault>
        ensures given { self.new.given ≡ self.old.given }
        ensures faults { self.new.faults ≡ self.old.faults }
        ensures last { self.new.last ≡ self.old.last }
        ensures broken { IsBroken self.old → IsErr result × IsBroken self.new }
        ensures open { OnOk result (IsOpenState self.new.state) }
        ensures shut { OnErr result (IsOpenState self.new.state → ⊥) }
        ensures whole { IfOk result (λ reply. IsWhole reply.items) }
    {
        let mut files = self.take_files(alloc)?;
        let outcome = files.exchange(alloc, request);
        self.settle(files, outcome)
    }
}

// The fault that a loss is for who asked.
fn fault_of(loss: Loss) -> LinkFault
    ensures { result ≡ fault_of loss }
{
    match loss {
        Loss::OutOfMemory => LinkFault::OutOfMemory,
        _ => LinkFault::Failed,
    }
}

impl Link for FileLink {
    ghost use Rattle.wire_text.specs.declared.request.Request.{Request as Asked};
    ghost use Rattle.wire_text.specs.Request.{SpellsRequest};
    ghost use Rattle.lxp_wire.specs.Answer.{fills_of};
    ghost use Rattle.lxp_wire.specs.Links.{IsReplyOf};
    ghost use Rattle.file_link.specs.Receiving.{IsWhole};
    ghost use Rattle.file_link.specs.FileLinks.{file_link_view, IsBroken, CameFrom, came_same, came_after, came_keeps, none_told};

    ghost view = { file_link_view };

    ghost came_from = { CameFrom };

    /// Writes the request and reads its reply. The reply is whole, and nothing came behind it. A link that is broken for good gives none.
    fn ask(&mut self, alloc: Global, request: &[u8]) -> Result<Vec<u8>, LinkFault>
        ensures came { CameFrom self.old self.new }
        ensures counted { OnOk result (HasRisen (file_link_view self.old).replies (file_link_view self.new).replies) }
        ensures uncounted { OnErr result ((file_link_view self.new).replies ≡ (file_link_view self.old).replies) }
        ensures last { IfOk result (λ reply. (file_link_view self.new).last ≡ reply.items) }
        ensures failed { IsErrOf result LinkFault.Failed → HasRisen (file_link_view self.old).faults (file_link_view self.new).faults }
        ensures answers { let old = file_link_view self.old in (r : Asked) → SpellsRequest request.now r → old.told ≡ true
            → IfOk result (λ reply. IsReplyOf old.peer (file_link_view self.new).peer r reply.items) }
        ensures fills { let old = file_link_view self.old in (r : Asked) → SpellsRequest request.now r → old.told ≡ true
            → (file_link_view self.new).peer.fills ≤ old.peer.fills + fills_of r }
        ensures whole { IfOk result (λ reply. IsWhole reply.items) }
        ensures broken { IsBroken self.old → IsErr result }
    {
        let reply = match self.exchange(alloc, request) {
            Ok(reply) => reply,
            Err(fault) => {
                if fault == LinkFault::Failed {
                    self.faults = self.faults.saturating_add(1);
                }
                return Err(fault);
            }
        };
        let Ok(answer) = Vec::from_slice(alloc, &reply) else {
            return Err(LinkFault::OutOfMemory);
        };
        self.given = self.given.saturating_add(1);
        self.last = reply;
        Ok(answer)
    }

    ghost same = { came_same };

    ghost after = { came_after };

    ghost keeps = { came_keeps };

    ghost root_known = { none_told };
}
