// What is asked over a wire.
ghost use Rattle.std.specs.Prelude.{◌≡◌, ◌∷◌, IfOk};
ghost use Rattle.wire_text.specs.Request.{SpellsRequest, ReadsRequest, RequestsAreApart};

use crate::numbers::{push_u32, push_words, u32_at, words_at};
use lxp_core::HoleId;
use std::alloc::{AllocError, Global};

/// What is asked of sources over a wire.
#[derive(Clone, Copy, Debug, PartialEq, Eq)]
pub enum Request {
    /// How many sources there are.
    Count,
    /// The hole of a source's whole document.
    Root(u32),
    /// The list of a hole of a source.
    Fill { source: u32, hole: HoleId },
}

/// What the beginning of a text comes to.
#[derive(Clone, Copy, Debug, PartialEq, Eq)]
pub enum RequestRead {
    /// A request, and how many bytes it takes. Further bytes may follow.
    Got { request: Request, len: usize },
    /// The text ends inside a request.
    More,
    /// No request begins with the first byte.
    BadTag,
}

/// The bytes of a request.
pub fn write_request(alloc: Global, r: &Request) -> Result<Vec<u8>, AllocError>
    ensures { IfOk result (λ text. SpellsRequest text.items r.now) }
{
    let mut text = Vec::new(alloc);
    match r {
        Request::Count => text.push(0)?,
        Request::Root(s) => {
            text.push(1)?;
            push_u32(&mut text, *s)?;
        }
        Request::Fill { source, hole } => {
            text.push(2)?;
            push_u32(&mut text, *source)?;
            push_words(&mut text, *hole)?;
        }
    }
    Ok(text)
}

// What stands after a first byte of 1: the number of the source whose root is asked for.
fn read_root(rest: &[u8]) -> RequestRead
    ensures { ReadsRequest (1 ∷ rest.now) result }
{
    match u32_at(rest) {
        Some((s, _)) => RequestRead::Got {
            request: Request::Root(s),
            len: 5,
        },
        None => RequestRead::More,
    }
}

// What stands after a first byte of 2: the number of a source, and the words of the hole whose list is asked for.
fn read_fill(rest: &[u8]) -> RequestRead
    ensures { ReadsRequest (2 ∷ rest.now) result }
{
    let Some((source, words)) = u32_at(rest) else {
        return RequestRead::More;
    };
    match words_at(words) {
        Some((hole, _)) => RequestRead::Got {
            request: Request::Fill { source, hole },
            len: 29,
        },
        None => RequestRead::More,
    }
}

/// The request that a text begins with. `More` comes exactly where the text is a proper prefix of a request, `BadTag` exactly where its
/// first byte is above 2.
pub fn read_request(text: &[u8]) -> RequestRead
    ensures { ReadsRequest text.now result }
{
    let Some((tag, rest)) = text.split_first() else {
        return RequestRead::More;
    };
    match *tag {
        0 => RequestRead::Got {
            request: Request::Count,
            len: 1,
        },
        1 => read_root(rest),
        2 => read_fill(rest),
        _ => RequestRead::BadTag,
    }
}

/// No request begins another, so a text begins with one request at most, however it goes on.
pub fn requests_are_apart()
    ensures { RequestsAreApart }
{}
