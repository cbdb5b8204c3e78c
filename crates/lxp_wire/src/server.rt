// Sources that are served over a stream of requests.
ghost use Rattle.std.specs.Prelude.{◌≡◌, ◌+◌, ◌≤◌, [], ◌++◌, IsTrue, ◌↔◌, List, ℕ, IfOk, OnErr, None};
ghost use Rattle.wire_text.specs.declared.request.Request.{Request as Asked};
ghost use Rattle.lxp_wire.specs.Answer.{fills_in};
ghost use Rattle.lxp_wire.specs.Stream.{stream_of, sources_of, fresh, Splits, IsFed, PiecesAreOne, SplitsAreOne};

use crate::begun::Begun;
use crate::serve::serve;
use lxp_core::Weighed;
use std::alloc::{AllocError, Global};

/// What a piece of a stream came to.
#[derive(Drop)]
pub struct Fed {
    /// The replies to the requests that the piece completed, in order.
    pub replies: Vec<u8>,
    /// Where in the stream the first bad tag stands.
    pub bad: Option<u64>,
}

// Two texts, one after the other.
fn joined(alloc: Global, prefix: &[u8], back: &[u8]) -> Result<Vec<u8>, AllocError>
    ensures { IfOk result (λ text. text.items ≡ prefix.now ++ back.now) }
{
    let mut text = Vec::new(alloc);
    text.extend_from_slice(prefix)?;
    text.extend_from_slice(back)?;
    Ok(text)
}

/// Sources that are served over a stream of requests, which comes in any pieces.
#[derive(Drop)]
pub struct Server<S> {
    sources: S,
    at: u64,
    begun: Begun,
    bad: Option<u64>,
}

impl<S> Server<S> {
    ghost use Rattle.lxp_wire.specs.Stream.{stream_of, sources_of, fresh};

    /// Sources of which nothing was asked yet.
    pub fn new(s: S) -> Server<S>
        ensures sources { sources_of result ≡ s }
        ensures stream { stream_of result ≡ fresh }
    {
        Server {
            sources: s,
            at: 0,
            begun: Begun::new(),
            bad: None,
        }
    }

    /// The sources, as they are now.
    pub fn into_sources(self) -> S
        ensures { result ≡ sources_of self }
    {
        self.sources
    }

    /// Whether no request is begun.
    pub fn whole(&self) -> bool
        ensures { IsTrue result ↔ ((stream_of self.now).begun ≡ []) }
    {
        self.begun.bytes().is_empty()
    }
}

impl<S: Weighed> Server<S> {
    /// Answers each request that the next piece of the stream completes. Where memory runs out the stream counts as before the piece,
    /// though sources may have been asked.
    pub fn feed(&mut self, alloc: Global, piece: &[u8]) -> Result<Fed, AllocError>
        // Whatever it answers, the sources came from those before, and at most as many fills were asked as the piece completes requests for.
        ensures came { S.came_from (sources_of self.old) (sources_of self.new) }
        ensures fills { (requests : List Asked) (rest : List ℕ) → Splits ((stream_of self.old).begun ++ piece.now) requests rest
            → (S.view (sources_of self.new)).fills ≤ (S.view (sources_of self.old)).fills + fills_in requests }
        // The replies are what the sources answer to these requests, in order; nothing is replied after a bad tag.
        ensures fed { let old = S.view (sources_of self.old) in let new = S.view (sources_of self.new) in
            IfOk result (λ fed. IsFed old new (stream_of self.old) piece.now (stream_of self.new) fed.replies.items) }
        ensures bad { IfOk result (λ fed. fed.bad ≡ (stream_of self.new).bad) }
        ensures kept { OnErr result (stream_of self.new ≡ stream_of self.old) }
    {
        if self.bad.is_some() {
            return Ok(Fed {
                replies: Vec::new(alloc),
                bad: self.bad,
            });
        }
        let text = joined(alloc, self.begun.bytes(), piece)?;
        let mut replies = Vec::new(alloc);
        let served = serve(alloc, &mut self.sources, &text, &mut replies)?;
        self.at = self.at.saturating_add(served.at as u64);
        if served.bad {
            self.bad = Some(self.at);
            return Ok(Fed {
                replies,
                bad: self.bad,
            });
        }
        self.begun = Begun::of(text.split_at(served.at).1);
        Ok(Fed { replies, bad: None })
    }
}

/// A stream may come in any pieces: it is cut into the same requests, and in one way only.
pub fn pieces_are_one_stream()
    ensures one { PiecesAreOne }
    ensures only { SplitsAreOne }
{}
