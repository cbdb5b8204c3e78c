// Pieces as a plan's text has them.
ghost use Rattle.std.specs.Prelude.{◌≡◌, ◌<◌, ◌≤◌, ◌^◌, IfOk, IfSome, length, map, option_map};
ghost use Rattle.plan_read.specs.PiecesMade.{pieces_of};
ghost use Rattle.plan_read.specs.Reading.{out_read, piece_read, next_piece, pieces_read};

use crate::names::Names;
use crate::parts::{begins_var, read_quoted};
use crate::variables::read_var;
use mix_tree::Var;
use plan_core::Piece;
use std::alloc::{AllocError, Global};

/// Pieces, and the variable that is bound after them.
#[derive(Drop)]
pub struct PiecesRead {
    pub pieces: Vec<Piece>,
    pub out: Var,
}

/// The variable that is bound, after an arrow.
pub fn read_out(names: &Names, arrow: &[u8], out: &[u8]) -> Option<Var>
    requires { length names.now < 2 ^ 32 }
    ensures { result ≡ out_read names.now arrow.now out.now }
{
    if arrow == b"->".as_slice() {
        read_var(names, out)
    } else {
        None
    }
}

// A piece of one word.
fn read_piece(alloc: Global, names: &Names, word: &[u8]) -> Result<Option<Piece>, AllocError>
    requires { length names.now < 2 ^ 32 }
    ensures { IfOk result (λ piece. piece ≡ piece_read names.now word.now) }
{
    if begins_var(word) {
        return match read_var(names, word) {
            Some(var) => Ok(Some(Piece::Var(var))),
            None => Ok(None),
        };
    }
    match read_quoted(alloc, word)? {
        Some(label) => Ok(Some(Piece::Text(label))),
        None => Ok(None),
    }
}

// The piece of the first words, and how many words it has.
fn read_next(
    alloc: Global,
    names: &Names,
    word: &[u8],
    next: &[u8],
) -> Result<Option<(Piece, usize)>, AllocError>
    requires { length names.now < 2 ^ 32 }
    ensures piece { IfOk result (λ piece. piece ≡ next_piece names.now word.now next.now) }
    ensures count { IfOk result (λ piece. IfSome piece (λ p. (1 ≤ p.1) × (p.1 ≤ 2))) }
{
    if word == b"label".as_slice() {
        return match read_var(names, next) {
            Some(var) => Ok(Some((Piece::LabelOf(var), 2))),
            None => Ok(None),
        };
    }
    match read_piece(alloc, names, word)? {
        Some(piece) => Ok(Some((piece, 1))),
        None => Ok(None),
    }
}

/// Pieces, an arrow and a variable; `None` where the words are others.
pub fn read_pieces(
    alloc: Global,
    names: &Names,
    words: &[&[u8]],
) -> Result<Option<PiecesRead>, AllocError>
    requires { length names.now < 2 ^ 32 }
    ensures { IfOk result (λ read. option_map pieces_of read ≡ pieces_read names.now (map (λ w. w.now) words.now)) }
{
    let mut pieces = Vec::new(alloc);
    let mut at = 0;
    while at + 2 < words.len() {
        let Some((piece, count)) = read_next(alloc, names, words[at], words[at + 1])? else {
            return Ok(None);
        };
        pieces.push(piece)?;
        at += count;
    }
    let [arrow, out] = &words[at..] else {
        return Ok(None);
    };
    match read_out(names, arrow, out) {
        Some(out) => Ok(Some(PiecesRead { pieces, out })),
        None => Ok(None),
    }
}
