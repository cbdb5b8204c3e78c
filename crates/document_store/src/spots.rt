// The bytes of labels, and the nodes that have them.
ghost use Rattle.std.specs.Prelude.{◌≡◌, ◌<◌, ◌≤◌, ◌+◌, ◌++◌, ◌∷◌, [], length, reverse, slice_range, OnOk, OnErr};
ghost use Rattle.std.specs.Str.{IsUtf8};
ghost use Rattle.document_store.specs.Laid.{node_at};
ghost use Rattle.document_store.specs.Spots.{spot_of, nodes_in, IsKept};

use crate::room::make_room;
use std::alloc::AllocError;

/// Where a node's label ends in the bytes, and how many nodes are below the node.
#[derive(Clone, Copy)]
pub struct Spot {
    pub end: u32,
    pub below: u32,
}

/// The most nodes, and the most bytes of labels.
pub const MOST: usize = 4_294_967_295;

/// Puts a node without children after others. An error, where there is no room, leaves them as they were.
#[inline(always)]
pub fn add(bytes: &mut Vec<u8>, spots: &mut Vec<Spot>, label: &[u8]) -> Result<(), AllocError>
    ensures bytes { OnOk result (bytes.new.items ≡ bytes.old.items ++ label.now) }
    ensures spots { OnOk result (spots.new.items ≡ spots.old.items ++ record { end = length bytes.old.items + length label.now; below = 0 } ∷ []) }
    ensures few { OnOk result (length spots.new.items ≤ 4294967295) }
    ensures short { OnOk result (length bytes.new.items ≤ 4294967295) }
    ensures same_bytes { OnErr result (bytes.new.items ≡ bytes.old.items) }
    ensures same_spots { OnErr result (spots.new.items ≡ spots.old.items) }
{
    let end = bytes.len() + label.len();
    if end > MOST || spots.len() >= MOST {
        return Err(AllocError);
    }
    make_room(bytes, label.len())?;
    make_room(spots, 1)?;
    bytes.extend_from_slice(label)?;
    spots.push(Spot {
        end: end as u32,
        below: 0,
    })?;
    Ok(())
}

/// What is kept of the node after which so many stand; zeros where there are not so many.
#[inline]
pub fn spot_at(spots: &[Spot], i: usize) -> Spot
    ensures { result ≡ spot_of (reverse spots.now) i }
{
    let len = spots.len();
    if i < len {
        return spots[len - i - 1];
    }
    Spot { end: 0, below: 0 }
}

/// The bytes between two places.
#[inline]
pub fn part(bytes: &[u8], from: usize, to: usize) -> &[u8]
    requires order { from ≤ to }
    requires inside { to ≤ length bytes.now }
    ensures { result.now ≡ slice_range bytes.now from to }
{
    &bytes[from..to]
}

/// The label of the node after which so many stand.
#[inline]
pub fn label_at<'a>(bytes: &'a [u8], spots: &[Spot], i: usize) -> &'a [u8]
    requires kept { IsKept bytes.now spots.now }
    requires inside { i < length spots.now }
    ensures bytes { result.now ≡ (node_at (nodes_in bytes.now (reverse spots.now)) i).label }
    ensures utf8 { ∥ IsUtf8 result.now ∥₁ }
{
    let from = spot_at(spots, i + 1).end as usize;
    let to = spot_at(spots, i).end as usize;
    part(bytes, from, to)
}
