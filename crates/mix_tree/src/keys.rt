// Which keys are in force.
ghost use Rattle.std.specs.Prelude.{◌≡◌, IfOk, OnOk, List, [], ◌∷◌};
ghost use Rattle.std.specs.List.{list_any, list_all};
ghost use Rattle.mix_tree.specs.Keys.{gives, stands, collects, in_force, key_eq};

use crate::Key;
use std::alloc::{AllocError, Global};

// Whether the second key is in force where the first is.
fn key_gives(key: &Key, other: &Key) -> bool
    ensures { result ≡ gives key.now other.now }
{
    match (key, other) {
        (Key::Node(w), Key::Node(v)) => *w == *v,
        (Key::Node(w), Key::LabelOf(v)) => *w == *v,
        (Key::LabelOf(_), Key::Node(_)) => false,
        (Key::LabelOf(w), Key::LabelOf(v)) => *w == *v,
    }
}

/// Whether a key stands in force: it is one of the keys in force, or it is the label of a node that is one.
pub fn key_stands(force: &[Key], key: &Key) -> bool
    ensures { result ≡ stands force.now key.now }
{
    force.iter().any(|f| key_gives(f, key))
}

// Whether each key of an item stands in force.
fn all_stand(force: &[Key], own: &[Key]) -> bool
    ensures { result ≡ list_all (stands force.now) own.now }
{
    own.iter().all(|k| key_stands(force, k))
}

/// Whether an item with the keys `own` collects: one of them doesn't stand in force around it.
pub fn item_collects(force: &[Key], own: &[Key]) -> bool
    ensures { result ≡ collects force.now own.now }
{
    !all_stand(force, own)
}

// Whether a key is one of some keys.
fn is_among(key: &Key, keys: &[Key]) -> bool
    ensures { result ≡ list_any (key_eq key.now) keys.now }
{
    keys.iter().any(|f| key == f)
}

// Puts a key after others, unless it is one of them.
fn add_key(keys: &mut Vec<Key>, key: &Key) -> Result<(), AllocError>
    ensures { OnOk result (keys.new.items ≡ in_force keys.old.items (key.now ∷ [])) }
{
    if !is_among(key, keys.as_slice()) {
        keys.push(*key)?;
    }
    Ok(())
}

/// The keys in force at an item: those around it, then its own, without repeats.
pub fn keys_in_force(alloc: Global, force: &[Key], own: &[Key]) -> Result<Vec<Key>, AllocError>
    ensures { IfOk result (λ keys. keys.items ≡ in_force force.now own.now) }
{
    let mut keys = Vec::from_slice(alloc, force)?;
    for key in own {
        add_key(&mut keys, key)?;
    }
    Ok(keys)
}
