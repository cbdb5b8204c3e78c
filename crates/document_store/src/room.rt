// How lists that only grow get their room.
ghost use Rattle.std.specs.Prelude.{◌≡◌, ◌+◌, ◌≤◌, vec_len, vec_capacity, OnOk, OnErr};

use std::alloc::AllocError;

// How many more items than are asked for get room at least.
const STEP: usize = 4096;

// Gets a list room for more items, and for an eighth of its length beside them, if there is memory for that.
#[cold]
#[inline(never)]
fn grow<T>(list: &mut Vec<T>, more: usize) -> Result<(), AllocError>
    ensures items { list.new.items ≡ list.old.items }
    ensures room { OnOk result (vec_len list.new + more ≤ vec_capacity list.new) }
{
    let ahead = list.len() / 8 + STEP;
    if list.reserve_exact(more.saturating_add(ahead)).is_err() {
        return list.reserve_exact(more);
    }
    Ok(())
}

/// Makes room for more items after a list. Where it has none, it gets an eighth of its length more than is asked for: a
/// list that grows item by item never has twice its room.
#[inline]
pub fn make_room<T>(list: &mut Vec<T>, more: usize) -> Result<(), AllocError>
    ensures items { list.new.items ≡ list.old.items }
    ensures room { OnOk result (vec_len list.new + more ≤ vec_capacity list.new) }
{
    if more <= list.capacity() - list.len() {
        return Ok(());
    }
    grow(list, more)
}
