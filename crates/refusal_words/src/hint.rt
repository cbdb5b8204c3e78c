// What could stand at the place of a view's fault, or how the fault can be mended.
ghost use Rattle.std.specs.Prelude.{◌≡◌, ◌≤◌, IfOk, length};
ghost use Rattle.refusal_words.specs.View.{IsHint, ListsExpected, ListsSources};
ghost use Rattle.xmas_read.specs.Results.{names_of_sources};

use crate::listing::{candidate_lines, source_lines};
use mix_catalog::Catalog;
use std::alloc::{AllocError, Global};
use view_continuations::{Expected, expected_at};
use xmas_read::{Large, XmasFault};

// The words before the list of what could stand at a place, by whether that is the place of the fault and whether there is anything.
fn heading(here: bool, none: bool) -> &'static str {
    if none {
        "nothing can stand after what is before it\n"
    } else if here {
        "here could stand:\n"
    } else {
        "in place of the word before it could stand:\n"
    }
}

// What can stand at a place of a view's text, a line each.
fn expected_lines(alloc: Global, text: &[u8], at: usize) -> Result<Vec<u8>, AllocError>
    requires { at ≤ length text.now }
    ensures { IfOk result (λ hint. ListsExpected text.now at hint.items) }
{
    let expected = expected_at(alloc, text, at)?;
    let Expected {
        at: place,
        candidates,
    } = &expected;
    let words = heading(*place == at, candidates.is_empty());
    let mut hint = Vec::from_slice(alloc, words.as_bytes())?;
    let lines = candidate_lines(alloc, candidates)?;
    hint.extend_from_slice(&lines)?;
    Ok(hint)
}

// The names of a catalog's sources, a line each, after a heading.
fn sources(alloc: Global, catalog: &Catalog) -> Result<Vec<u8>, AllocError>
    ensures { IfOk result (λ hint. ListsSources (names_of_sources catalog.now) hint.items) }
{
    let mut hint = Vec::from_slice(alloc, b"the catalog has these sources:\n")?;
    let lines = source_lines(alloc, catalog)?;
    hint.extend_from_slice(&lines)?;
    Ok(hint)
}

// How a view can be mended that has too much of something.
fn large_hint(large: Large) -> &'static str {
    match large {
        Large::Depth => "no element may stand inside 20 others\n",
        Large::Items => "a template may have at most 1,000 items\n",
        Large::Variables => "a view may have at most 60 variables\n",
        Large::Conditions => "a view may have at most 100 conditions\n",
        Large::Nesting => "a path may have no parenthesis open inside 100 others\n",
        Large::Positions => "a path may have at most 120 label positions\n",
    }
}

// How a view can be mended, where its fault alone says that.
fn mending(fault: XmasFault) -> &'static str {
    match fault {
        XmasFault::NotUtf8(_) => "a view is text in UTF-8, and no character has this byte there\n",
        XmasFault::TooLarge(large) => large_hint(large),
        XmasFault::TagDiffers(_) => {
            "a closing tag has the name of the opening tag that it closes, the last that is open\n"
        }
        XmasFault::BoundTwice(_) => {
            "an earlier condition binds this variable: bind another one here, and compare the two, as in AND $A = $B\n"
        }
        XmasFault::Unbound(_) => {
            "no condition binds this variable, or none before this one: a condition binds the variable that it ends with\n"
        }
        XmasFault::OuterGroup(_) => {
            "the outer element stands once, so it takes no keys: write {} or nothing\n"
        }
        XmasFault::Loose(_) => {
            "this would show a value for each binding: make its variable a key, {$X}, of this item or of an element around it\n"
        }
        XmasFault::Unexpected(_)
        | XmasFault::EndsEarly
        | XmasFault::UnknownSource(_)
        | XmasFault::OutOfMemory => "",
    }
}

/// What could stand at the place of a view's fault, or how the fault can be mended: lines, each with LF. `Err`: memory.
pub fn hint_of(
    alloc: Global,
    text: &[u8],
    catalog: &Catalog,
    fault: XmasFault,
) -> Result<Vec<u8>, AllocError>
    ensures { IfOk result (λ hint. IsHint text.now (names_of_sources catalog.now) fault hint.items) }
{
    match fault {
        XmasFault::Unexpected(at) => expected_lines(alloc, text, at.min(text.len())),
        XmasFault::EndsEarly => expected_lines(alloc, text, text.len()),
        XmasFault::UnknownSource(_) => sources(alloc, catalog),
        XmasFault::NotUtf8(_)
        | XmasFault::TooLarge(_)
        | XmasFault::TagDiffers(_)
        | XmasFault::BoundTwice(_)
        | XmasFault::Unbound(_)
        | XmasFault::OuterGroup(_)
        | XmasFault::Loose(_)
        | XmasFault::OutOfMemory => Vec::from_slice(alloc, mending(fault).as_bytes()),
    }
}
