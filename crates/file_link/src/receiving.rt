// Receiving one reply, piece by piece.
ghost use Rattle.std.specs.Prelude.{◌≡◌, ◌≤◌, ◌<◌, length};
ghost use Rattle.wire_frame.specs.Standing.{standing_after};
ghost use Rattle.wire_frame.specs.Frames.{standing_of};
ghost use Rattle.file_link.specs.Receiving.{KeepsPiece, TakesPiece, Receives, AreReceived};

use crate::loss::Loss;
use mix_io::WHOLE_LIMIT;
use std::alloc::Global;
use std::io::{ErrorKind, Read};
use wire_frame::{End, Frame};

// Keeps a further piece behind the bytes that came before, unless there are too many.
fn keep(bytes: &mut Vec<u8>, piece: &[u8]) -> Result<(), Loss>
    requires { length bytes.old.items ≤ WHOLE_LIMIT }
    ensures { KeepsPiece bytes.old.items piece.now bytes.new.items result }
{
    if piece.len() > WHOLE_LIMIT - bytes.len() {
        return Err(Loss::TooLong);
    }
    bytes.extend_from_slice(piece)?;
    Ok(())
}

// Takes a further piece of a reply, of which the bytes came before. Whether the reply is whole with it.
fn take_piece(frame: &mut Frame, bytes: &mut Vec<u8>, piece: &[u8]) -> Result<bool, Loss>
    requires stands { standing_of frame.old ≡ standing_after bytes.old.items }
    requires short { length bytes.old.items ≤ WHOLE_LIMIT }
    ensures { TakesPiece bytes.old.items piece.now (standing_of frame.new) bytes.new.items result }
{
    let taken = frame.take(piece);
    match taken.end {
        End::Lost => Err(Loss::Lost),
        End::Whole if taken.count < piece.len() => Err(Loss::Lost),
        End::Whole => {
            keep(bytes, piece)?;
            Ok(true)
        }
        End::Open => {
            keep(bytes, piece)?;
            Ok(false)
        }
    }
}

/// Reads a reply in pieces of at most the room's size. A reader that gives a reply alone is read to that reply, unless a read fails, memory
/// runs out, or the reply is longer than 67,108,864 bytes.
pub fn receive<R: Read>(alloc: Global, from: &mut R, room: &mut [u8]) -> Result<Vec<u8>, Loss>
    requires { 0 < length room.old }
    ensures answers { Receives (R.remaining from.old) (R.remaining from.new) result }
    ensures room { length room.new ≡ length room.old }
{
    let mut frame = Frame::new();
    let mut bytes = Vec::new(alloc);
    for _ in 0..u64::MAX {
        let count = match from.read(room) {
            Ok(0) => return Err(Loss::Ended),
            Ok(count) => count,
            Err(error) if error.kind() == ErrorKind::Interrupted => continue,
            Err(_) => return Err(Loss::Failed),
        };
        if take_piece(&mut frame, &mut bytes, &room[..count])? {
            return Ok(bytes);
        }
    }
    Err(Loss::Failed)
}

/// A reader that gives a reply of at most 67,108,864 bytes alone is read to that reply, or a read failed or memory ran out.
pub fn replies_are_received()
    ensures { AreReceived }
{}
