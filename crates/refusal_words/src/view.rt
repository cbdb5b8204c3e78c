// The refusal of a view in words.
ghost use Rattle.std.specs.Prelude.{◌≡◌, IfOk};
ghost use Rattle.refusal_words.specs.View.{ExplainsView, IsShown, place_of};
ghost use Rattle.xmas_read.specs.Results.{names_of_sources};

use crate::hint::hint_of;
use mix_catalog::Catalog;
use std::alloc::{AllocError, Global};
use text_places::place_text;
use xmas_read::XmasFault;

// The place that a fault of a view names: where a view ends too early its end, and none where it is too large.
fn place_of(text: &[u8], fault: XmasFault) -> Option<usize>
    ensures { result ≡ place_of text.now fault }
{
    match fault {
        XmasFault::NotUtf8(at)
        | XmasFault::Unexpected(at)
        | XmasFault::TagDiffers(at)
        | XmasFault::UnknownSource(at)
        | XmasFault::BoundTwice(at)
        | XmasFault::Unbound(at)
        | XmasFault::OuterGroup(at)
        | XmasFault::Loose(at) => Some(at.min(text.len())),
        XmasFault::EndsEarly => Some(text.len()),
        XmasFault::TooLarge(_) | XmasFault::OutOfMemory => None,
    }
}

// The line of a fault's place and a mark below it, where the fault has a place.
fn shown(alloc: Global, text: &[u8], fault: XmasFault) -> Result<Vec<u8>, AllocError>
    ensures { IfOk result (λ shown. IsShown text.now (place_of text.now fault) shown.items) }
{
    match place_of(text, fault) {
        Some(at) => place_text(alloc, text, at),
        None => Ok(Vec::new(alloc)),
    }
}

/// A view's fault in words: its line and column, that line with a mark below the place, and what could stand there, or how it can be mended. Each
/// line ends with LF. `Err`: memory.
pub fn view_words(
    alloc: Global,
    text: &[u8],
    catalog: &Catalog,
    fault: XmasFault,
) -> Result<Vec<u8>, AllocError>
    ensures { IfOk result (λ words. ExplainsView text.now (names_of_sources catalog.now) fault words.items) }
{
    let mut words = shown(alloc, text, fault)?;
    let hint = hint_of(alloc, text, catalog, fault)?;
    words.extend_from_slice(&hint)?;
    Ok(words)
}
