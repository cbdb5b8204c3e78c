// The remote source of a line: what stands after the file of its replies.
ghost use Rattle.std.specs.Prelude.{◌≡◌, ◌<◌, IfOk, IsTrue, IsUtf8, length, take, true};
ghost use Rattle.mix_words.specs.Places.{ends_blank};
ghost use Rattle.mix_catalog.specs.Remotes.{number_after_file, remote_at, remote_of};

use crate::form::{is_word_end, read_number_word};
use mix_tree::{Label, LabelRead, read_label};
use mix_words::places::word_place;
use mix_words::words::cut_words;
use std::alloc::{AllocError, Global};

/// What stands after the file of replies: the file of requests, and the number of the source on the other side.
#[derive(Drop)]
pub struct RemoteAfter {
    pub requests: Label,
    pub number: u32,
}

// The number of the only word after the file of requests.
fn read_number_after(alloc: Global, after: &[u8]) -> Result<Option<u32>, AllocError>
    ensures { IfOk result (λ number. number ≡ number_after_file after.now) }
{
    if !is_word_end(after) {
        return Ok(None);
    }
    let words = cut_words(alloc, after)?;
    Ok(read_number_word(&words))
}

// The file of requests that begins at a place, and the number after it.
fn read_remote_at(alloc: Global, after: &[u8], at: usize) -> Result<Option<RemoteAfter>, AllocError>
    requires utf8 { IsUtf8 after.now }
    requires inside { at < length after.now }
    requires apart { IsTrue (ends_blank true (take at after.now)) }
    ensures { IfOk result (λ found. found ≡ remote_at after.now at) }
{
    let LabelRead::Got {
        label: requests,
        end,
    } = read_label(alloc, after, at)?
    else {
        return Ok(None);
    };
    let Some(number) = read_number_after(alloc, &after[end..])? else {
        return Ok(None);
    };
    Ok(Some(RemoteAfter { requests, number }))
}

/// The file of requests and the number of what stands after the file of replies; `None` where that is something else.
pub fn read_remote_after(alloc: Global, after: &[u8]) -> Result<Option<RemoteAfter>, AllocError>
    requires { IsUtf8 after.now }
    ensures { IfOk result (λ found. found ≡ remote_of after.now) }
{
    let Some(at) = word_place(after, 0) else {
        return Ok(None);
    };
    read_remote_at(alloc, after, at)
}
