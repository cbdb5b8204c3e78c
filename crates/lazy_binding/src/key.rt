// Keys that an operator has seen.
ghost use Rattle.std.specs.Prelude.{◌≡◌, ◌<◌, ◌++◌, ◌∷◌, [], OnErr, IfOk, IfErr, IfSome, IsTrue, ℕ, nat_lt, is_none, if◌then◌else◌, true, false, not, suc, length, slice_index_or, take};
ghost use Rattle.lazy_binding.specs.Keys.{same_part, same_parts, part_fed, was_seen};
ghost use Rattle.lazy_binding.specs.KeyLaws.{part_partial_equivalence, part_equivalence, part_alike};
ghost use Rattle.lxp_core.specs.declared.fault.WalkFault.TheVariants.{OutOfMemory};

use indexmap::IndexSet;
use lxp_core::WalkFault;
use mix_tree::{Label, same_label};
use smallvec::SmallVec;
use std::alloc::Global;
use std::default::Default;
use std::hash::{Hash, Hasher};
use std::marker::Model;
use tree_buffer::Spot;

/// What one key compares of a binding.
#[derive(Drop)]
pub enum KeyPart {
    /// A node: the number of its source, and its spot there.
    Node(u32, Spot),
    /// A label.
    Label(Label),
    /// Nothing: what stands in the unused places of a short tuple.
    Free,
}

/// What the keys of an operator compare of a binding, in their order. Two of them lie in place.
pub type KeyTuple = SmallVec<KeyPart, 2>;

impl Default for KeyPart {
    fn default() -> KeyPart {
        KeyPart::Free
    }
}

impl PartialEq for KeyPart {
    ghost eq = { same_part };

    ghost laws = { part_partial_equivalence };

    fn eq(&self, other: &KeyPart) -> bool {
        match self {
            KeyPart::Node(source, spot) => match other {
                KeyPart::Node(other_source, other_spot) => *source == *other_source
                    && *spot == *other_spot,
                _ => false,
            },
            KeyPart::Label(label) => match other {
                KeyPart::Label(other_label) => same_label(label, other_label),
                _ => false,
            },
            KeyPart::Free => matches!(other, KeyPart::Free),
        }
    }
}

impl Eq for KeyPart {
    ghost laws = { part_equivalence };
}

impl Hash for KeyPart {
    ghost hash_input = { part_fed };

    ghost respects_eq = { part_alike.fed };

    fn hash<H: Hasher>(&self, state: &mut H) {
        match self {
            // The nodes of one key are mostly of one source.
            KeyPart::Node(_, spot) => spot.hash(state),
            KeyPart::Label(label) => label.hash(state),
            KeyPart::Free => {}
        }
    }
}

/// The keys that an operator has seen, in order, each once, found by their hash.
#[derive(Drop)]
pub struct SeenKeys {
    keys: IndexSet<KeyTuple>,
}

impl Model for SeenKeys {
    ghost use Rattle.std.specs.Prelude.{List, map};
    ghost use Rattle.lazy_binding.specs.declared.key.KeyPart.{KeyPart};

    ghost Value = { List (List KeyPart) };

    ghost view = { λ seen. map (λ key. key.items) seen.keys.keys };
}

impl SeenKeys {
    /// The keys of an operator that has seen none.
    pub fn new(alloc: Global) -> SeenKeys
        ensures { result ≡ [] }
    {
        SeenKeys {
            keys: IndexSet::new(alloc),
        }
    }

    /// How many keys were seen.
    pub fn len(&self) -> usize
        ensures { result ≡ length self.now }
    {
        self.keys.len()
    }

    /// Whether a key stands at a place; then it stands at no place before.
    pub fn stands_at(&self, place: usize, key: &KeyTuple) -> bool
        ensures is { place < length self.now → result ≡ same_parts (slice_index_or self.now place []) key.now.items }
        ensures before { IsTrue result → was_seen key.now.items (take place self.now) ≡ false }
        ensures there { IsTrue result → was_seen key.now.items (take (suc place) self.now) ≡ true }
    {
        match self.keys.as_slice().get(place) {
            Some(there) => *there == *key,
            None => false,
        }
    }

    /// Whether a key is among the first few. No key is hashed where it is the last of them, or the next one.
    pub fn begins_with(&self, few: usize, key: &KeyTuple) -> bool
        ensures { result ≡ was_seen key.now.items (take few self.now) }
    {
        if self.stands_at(few, key) {
            return false;
        }
        if few > 0 && self.stands_at(few - 1, key) {
            return true;
        }
        match self.keys.get_index_of(key) {
            Some(place) => place < few,
            None => false,
        }
    }

    /// The number of a key among those that were seen; `None` exactly where it was not seen.
    pub fn number_of(&self, key: &KeyTuple) -> Option<usize>
        ensures within { IfSome result (λ m. m < length self.now) }
        ensures none { is_none result ≡ true → (few : ℕ) → was_seen key.now.items (take few self.now) ≡ false }
        ensures some { IfSome result (λ m. (few : ℕ) → nat_lt m few ≡ was_seen key.now.items (take few self.now)) }
        ensures alone { let items = key.now.items in
            (j : ℕ) → j < length self.now → same_parts (slice_index_or self.now j []) items ≡ true → was_seen items (take j self.now) ≡ false }
    {
        if self.keys.len() == 0 {
            return None;
        }
        self.keys.get_index_of(key)
    }

    /// Puts a key after the others where it was not seen; whether it did so. No key is hashed where it is the last of them.
    /// Where memory runs out it fails, and the keys are as they were.
    pub fn push(&mut self, key: KeyTuple) -> Result<bool, WalkFault>
        ensures new { IfOk result (λ new. new ≡ not (was_seen key.items self.old)) }
        ensures ok { IfOk result (λ new. self.new ≡ (if new then self.old ++ key.items ∷ [] else self.old)) }
        ensures err { OnErr result (self.new ≡ self.old) }
        ensures memory { IfErr result (λ e. e ≡ OutOfMemory) }
    {
        let len = self.keys.len();
        if len > 0 && self.stands_at(len - 1, &key) {
            return Ok(false);
        }
        match self.keys.insert_full(key) {
            Ok((_, new)) => Ok(new),
            Err(_) => Err(WalkFault::OutOfMemory),
        }
    }
}
