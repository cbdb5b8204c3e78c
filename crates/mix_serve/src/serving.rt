// Requests that are answered as they come.
ghost use Rattle.std.specs.Prelude.{◌≡◌, ◌+◌, ◌≤◌, [], ◌++◌, List, ℕ, OnOk, OnErr, IsErrOf};
ghost use Rattle.mix_base.specs.Counts.{HasRisen};
ghost use Rattle.mix_io.specs.Contents.{Appends, AppendsPrefix};
ghost use Rattle.lxp_wire.specs.Answer.{fills_in};
ghost use Rattle.lxp_wire.specs.Stream.{Splits, fresh, sources_of, stream_of};
ghost use Rattle.mix_serve.specs.Ends.{ServingEnds};
ghost use Rattle.mix_serve.specs.Pieces.{PieceEnds};
ghost use Rattle.wire_text.specs.declared.request.Request.{Request};

use crate::ServeFault;
use lxp_core::Weighed;
use lxp_wire::Server;
use mix_io::{Input, Sink, SinkFault, Streams};
use std::alloc::Global;

/// The most bytes of a stream of requests after which more is taken.
pub const MOST_TAKEN: usize = 1_073_741_824;

/// The most bytes that are taken at once.
pub const ROOM: usize = 4_096;

/// How a stream of requests ended.
#[derive(Clone, Copy, Debug, PartialEq, Eq)]
pub enum Served {
    /// The input ended, and all that was taken of it are whole requests.
    Whole,
    /// A byte came that begins no request, or the input ended inside a request.
    Broken,
    /// More than `MOST_TAKEN` bytes came, none of which was refused.
    TooLong,
}

// Writes replies by one write, and nothing where there are none.
fn write_replies<K: Sink>(alloc: Global, replies: &[u8], out: &mut K) -> Result<(), SinkFault>
    ensures ok { OnOk result (Appends (K.view out.old).written (K.view out.new).written replies.now) }
    ensures err { OnErr result (AppendsPrefix (K.view out.old).written (K.view out.new).written replies.now) }
    ensures count { (K.view out.old).faults ≤ (K.view out.new).faults }
    ensures failed { IsErrOf result SinkFault.Failed → HasRisen (K.view out.old).faults (K.view out.new).faults }
    ensures unasked { replies.now ≡ [] → out.new ≡ out.old }
{
    if replies.is_empty() {
        return Ok(());
    }
    out.write(alloc, replies)
}

// Answers the requests that a piece of a stream completes, by one write where there are any. True: a byte has come that begins no request.
fn serve_piece<S: Weighed, K: Sink>(
    alloc: Global,
    server: &mut Server<S>,
    piece: &[u8],
    out: &mut K,
) -> Result<bool, ServeFault>
    ensures came { S.came_from (sources_of server.old) (sources_of server.new) }
    ensures fills { (requests : List Request) (rest : List ℕ) → Splits ((stream_of server.old).begun ++ piece.now) requests rest
        → (S.view (sources_of server.new)).fills ≤ (S.view (sources_of server.old)).fills + fills_in requests }
    ensures ends { let old = S.view (sources_of server.old) in let new = S.view (sources_of server.new) in
        PieceEnds old new (stream_of server.old) piece.now (stream_of server.new) (K.view out.old) (K.view out.new) result }
    ensures count { (K.view out.old).faults ≤ (K.view out.new).faults }
{
    let fed = server.feed(alloc, piece)?;
    write_replies(alloc, &fed.replies, out)?;
    Ok(fed.bad.is_some())
}

// Answers the requests of an input piece by piece, each before more is taken.
fn serve_pieces<S: Weighed, I: Input, K: Sink>(
    alloc: Global,
    server: &mut Server<S>,
    streams: &mut Streams<I, K>,
) -> Result<Served, ServeFault>
    requires { stream_of server.old ≡ fresh }
    ensures came { S.came_from (sources_of server.old) (sources_of server.new) }
    ensures ends { ServingEnds (S.view (sources_of server.old)) (S.view (sources_of server.new)) (I.view streams.old.input)
        (I.view streams.new.input) (K.view streams.old.out) (K.view streams.new.out) result }
    ensures input { (I.view streams.old.input).faults ≤ (I.view streams.new.input).faults }
    ensures count { (K.view streams.old.out).faults ≤ (K.view streams.new.out).faults }
{
    let mut room = vec![in alloc; 0; ROOM]?;
    let mut taken = 0;
    'pieces: while taken <= MOST_TAKEN {
        let count = streams.input.take(alloc, &mut room)?;
        if count == 0 {
            if server.whole() {
                return Ok(Served::Whole);
            }
            return Ok(Served::Broken);
        }
        let bad = serve_piece(alloc, server, &room[..count], &mut streams.out)?;
        if bad {
            return Ok(Served::Broken);
        }
        taken += count;
    }
    Ok(Served::TooLong)
}

/// Answers the requests of an input by sources, those that a piece completes by one write before more is taken, and hands the sources
/// back (docs/FORMATS.md, "Serving"). Where a piece completes none, nothing is written. At most `ROOM` bytes are taken at once, and none after a byte that begins no request or more than
/// `MOST_TAKEN` bytes. All whole requests before such a byte are answered, however the stream ends.
///
/// `InputFailed`: the input failed; all whole requests that were taken of it before are answered. After `SinkFailed`, and where memory ran
/// out, a prefix of the replies was written.
pub fn serve_requests<S: Weighed, I: Input, K: Sink>(
    alloc: Global,
    sources: S,
    streams: &mut Streams<I, K>,
) -> (Result<Served, ServeFault>, S)
    ensures came { S.came_from sources result.1 }
    ensures ends { ServingEnds (S.view sources) (S.view result.1) (I.view streams.old.input) (I.view streams.new.input)
        (K.view streams.old.out) (K.view streams.new.out) result.0 }
    ensures input { (I.view streams.old.input).faults ≤ (I.view streams.new.input).faults }
    ensures count { (K.view streams.old.out).faults ≤ (K.view streams.new.out).faults }
{
    let mut server = Server::new(sources);
    let end = serve_pieces(alloc, &mut server, streams);
    (end, server.into_sources())
}
