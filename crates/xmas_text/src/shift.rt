// Adding a token to a rule that is being built.
ghost use Rattle.std.specs.Prelude.{◌≡◌, IfOk};
ghost use Rattle.xmas_text.specs.Drafts as drafts;
ghost use Rattle.xmas_text.specs.Shifted as shifted;

use crate::draft::{Draft, Pending};
use crate::shift_conds::{shift_compared, shift_cond, shift_done, shift_from, shift_path};
use crate::shift_items::{shift_item, shift_key_label, shift_keys, shift_labelled};
use std::alloc::{AllocError, Global};
use xmas_tokens::Lexeme;

/// The draft after one more token, which stands at a place.
pub fn shift(alloc: Global, draft: Draft, at: usize, token: Lexeme) -> Result<Draft, AllocError>
    ensures { IfOk result (λ d. drafts.draft_in d ≡ shifted.shifted (drafts.draft_in draft) at token) }
{
    let Draft { built, pending } = draft;
    match pending {
        Pending::Items => shift_item(alloc, built, at, token),
        Pending::Labelled(start) => shift_labelled(built, start, at, token),
        Pending::Keys(item, group) => shift_keys(built, item, group, at, token),
        Pending::KeyLabel(item, group) => shift_key_label(built, item, group, at, token),
        Pending::Cond => Ok(shift_cond(built, at, token)),
        Pending::CondFrom(start) => Ok(shift_from(built, start, token)),
        Pending::CondPath(start, path) => shift_path(built, start, path, at, token),
        Pending::Compared(left, op) => shift_compared(built, left, op, at, token),
        Pending::Done => Ok(shift_done(built, at, token)),
    }
}
