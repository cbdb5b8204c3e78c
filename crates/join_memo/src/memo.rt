// A list of pairs that grows at its end, and an index of it by label.
ghost use Rattle.std.specs.Prelude.{◌≡◌, ◌++◌, ◌∷◌, [], ◌+◌, ℕ, List, true, false, OnOk, OnErr, IfErr, length, map, slice_get, option_copied, option_map};
ghost use Rattle.join_memo.specs.Places.{IsIndex, IsNumber, IsAscending, IsLeastOf};
ghost use Rattle.join_memo.specs.Kept.{labels_of, IsFound};

use crate::known::KnownLabels;
use mix_tree::{Label, same_label};
use smallvec::SmallVec;
use std::alloc::{AllocError, Global};
use std::marker::Model;

/// The places of one label. Most labels have few, which lie in the list of groups itself.
type Group = SmallVec<usize, 3>;

/// Pairs of a label and an item, in the order in which they were pushed, and whether all were. A pair keeps its place, whatever is pushed
/// later, and its label may be that of others. What a member takes is in docs/DECISIONS.md.
#[derive(Drop)]
pub struct Memo<T> {
    pairs: Vec<(Label, T)>,
    known: KnownLabels,
    groups: Vec<Group>,
    // The number of each pair's label, by which a look-up after the pair begins. Nothing is promised of it.
    numbers: Vec<usize>,
    ended: bool,
}

impl<T> Model for Memo<T> {
    ghost use Rattle.std.specs.Prelude.{map};
    ghost use Rattle.join_memo.specs.Kept.{Kept, labels_of};
    ghost use Rattle.join_memo.specs.Places.{IsIndex};

    ghost Value = { Kept T };

    ghost view = { λ m. record { pairs = m.pairs.items; ended = m.ended } };

    ghost invariant = { λ m. IsIndex m.known (map (λ g. g.items) m.groups.items) (labels_of m.pairs.items) };
}

/// The pair that was not pushed, for want of memory.
#[derive(Drop)]
pub struct PushRefused<T> {
    pub key: Label,
    pub item: T,
}

/// The place of a new pair stands in the group of its label, whose number is answered.
fn add_place(
    alloc: Global,
    known: &mut KnownLabels,
    groups: &mut Vec<Group>,
    key: &Label,
    place: usize,
) -> Result<usize, AllocError>
    requires { (labels : List (List ℕ)) × IsIndex known.old (map (λ g. g.items) groups.old.items) labels × (length labels ≡ place) }
    ensures ok { OnOk result ((labels : List (List ℕ)) → IsIndex known.old (map (λ g. g.items) groups.old.items) labels → length labels ≡ place
        → IsIndex known.new (map (λ g. g.items) groups.new.items) (labels ++ key.now ∷ [])) }
    ensures known { OnErr result (known.new ≡ known.old) }
    ensures groups { OnErr result (map (λ g. g.items) groups.new.items ≡ map (λ g. g.items) groups.old.items) }
{
    groups.reserve(1)?;
    let (number, is_new) = known.put(alloc, key)?;
    if is_new {
        groups.push(Group::from_buf_and_len(alloc, [place, 0, 0], 1))?;
    } else {
        let group = &mut groups[number];
        group.push(place)?;
    }
    Ok(number)
}

/// The first of ascending places from one on.
fn first_from(places: &[usize], from: usize) -> Option<usize>
    requires { IsAscending places.now }
    ensures { IsLeastOf places.now from result }
{
    match places.binary_search(&from) {
        Ok(_) => Some(from),
        Err(at) => {
            if at < places.len() {
                Some(places[at])
            } else {
                None
            }
        }
    }
}

/// The number of a label. It is not hashed where it is the label of the pair before a place.
fn number_near(known: &KnownLabels, numbers: &[usize], key: &Label, from: usize) -> Option<usize>
    ensures { IsNumber known.now key.now result }
{
    let before = from.saturating_sub(1);
    match numbers.get(before) {
        Some(number) if known.has(*number, key) => Some(*number),
        _ => known.number(key),
    }
}

impl<T: Drop> Memo<T> {
    /// No pairs so far, and more may come. It takes no memory.
    pub fn new(alloc: Global) -> Memo<T>
        ensures pairs { result.pairs ≡ [] }
        ensures ended { result.ended ≡ false }
    {
        Memo {
            pairs: Vec::new(alloc),
            known: KnownLabels::new(alloc),
            groups: Vec::new(alloc),
            numbers: Vec::new(alloc),
            ended: false,
        }
    }

    /// One more pair, after the others. The only error is want of memory: it hands the pair back and leaves the memo as it was.
    pub fn push(&mut self, alloc: Global, key: Label, item: T) -> Result<(), PushRefused<T>>
        requires { self.old.ended ≡ false }
        ensures ok { OnOk result (self.new ≡ record { pairs = self.old.pairs ++ (key, item) ∷ []; ended = false }) }
        ensures err { OnErr result (self.new ≡ self.old) }
        ensures back { IfErr result (λ e. e ≡ record { key = key; item = item }) }
    {
        if self.pairs.reserve(1).is_err() {
            return Err(PushRefused { key, item });
        }
        if self.numbers.reserve(1).is_err() {
            return Err(PushRefused { key, item });
        }
        let place = self.pairs.len();
        let Ok(number) = add_place(alloc, &mut self.known, &mut self.groups, &key, place) else {
            return Err(PushRefused { key, item });
        };
        let _ = self.numbers.push(number);
        match self.pairs.push((key, item)) {
            Ok(()) => Ok(()),
            Err(refused) => {
                let (key, item) = refused.value;
                Err(PushRefused { key, item })
            }
        }
    }

    /// No more pairs will come. The pairs stay.
    pub fn end(&mut self)
        ensures { self.new ≡ record { pairs = self.old.pairs; ended = true } }
    {
        self.ended = true;
    }

    /// Whether no more pairs will come.
    pub fn ended(&self) -> bool
        ensures { result ≡ self.now.ended }
    {
        self.ended
    }

    /// How many pairs were pushed so far.
    pub fn len(&self) -> usize
        ensures { result ≡ length self.now.pairs }
    {
        self.pairs.len()
    }

    /// The item of the pair at a place, counted from 0; `None` exactly after the last one.
    pub fn get(&self, i: usize) -> Option<&T>
        ensures { option_copied result ≡ option_map (λ p. p.1) (slice_get self.now.pairs i) }
    {
        match self.pairs.get(i) {
            None => None,
            Some(pair) => Some(&pair.1),
        }
    }

    /// The place of the last pair, where it has this label. Nothing is hashed.
    fn find_last(&self, key: &Label, last: usize) -> Option<usize>
        requires { length self.now.pairs ≡ last + 1 }
        ensures { IsFound (labels_of self.now.pairs) key.now last result }
    {
        match self.pairs.get(last) {
            Some(pair) if same_label(&pair.0, key) => Some(last),
            _ => None,
        }
    }

    /// The least place at or after `from` at which a pair has this label; `None` exactly where no pair so far has it there. It takes no memory.
    pub fn find(&self, key: &Label, from: usize) -> Option<usize>
        ensures { IsFound (labels_of self.now.pairs) key.now from result }
    {
        if self.pairs.len().saturating_sub(from) == 1 {
            return self.find_last(key, from);
        }
        match number_near(&self.known, &self.numbers, key, from) {
            None => None,
            Some(number) => first_from(self.groups[number].as_slice(), from),
        }
    }
}
