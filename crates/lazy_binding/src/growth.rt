// What is remembered while a plan is walked: members of a join's right side, keys that were seen, and how far a group was walked.
ghost use Rattle.std.specs.Prelude.{◌≡◌, ◌<◌, ◌≤◌, ◌⊎◌, ◌++◌, ◌∷◌, [], true, false, not, IfOk, IfErr, MatchOption, OnOk, OnErr, length, slice_index_or, take};
ghost use Rattle.lxp_core.specs.declared.fault.WalkFault.TheVariants.{OutOfMemory};
ghost use Rattle.lazy_binding.specs.Growth.{OthersStay, OthersGathered, IsPushed, IsReached, IsUnknown, Resumes, groups_in};
ghost use Rattle.lazy_binding.specs.Keys.{was_seen};
ghost use Rattle.lazy_binding.specs.World.{last_of, no_pairs};
ghost use Rattle.lazy_binding.specs.declared.position.Position.{Start};

use crate::key::{KeyTuple, SeenKeys};
use crate::parts::{Growing, Walked};
use crate::position::{Position, Reached, put, share};
use join_memo::Memo;
use lxp_core::WalkFault;
use mix_tree::Label;
use std::alloc::Global;
use std::rc::Rc;

/// Puts one more member after those of an operator's memo.
/// Where memory runs out it fails, and the memos are as they were.
pub fn push_member(
    alloc: Global,
    memos: &mut Vec<Memo<Rc<Position>>>,
    op: usize,
    label: Label,
    member: Rc<Position>,
) -> Result<(), WalkFault>
    requires op { op < length memos.old.items }
    requires open { (slice_index_or memos.old.items op no_pairs).ended ≡ false }
    ensures others { OthersStay memos.old.items memos.new.items op }
    ensures ok { let old = slice_index_or memos.old.items op no_pairs in
        OnOk result (slice_index_or memos.new.items op no_pairs ≡ record { pairs = old.pairs ++ (label, member) ∷ []; ended = false }) }
    ensures err { OnErr result (slice_index_or memos.new.items op no_pairs ≡ slice_index_or memos.old.items op no_pairs) }
    ensures memory { IfErr result (λ e. e ≡ OutOfMemory) }
{
    let memo = &mut memos[op];
    match memo.push(alloc, label, member) {
        Ok(()) => Ok(()),
        Err(_) => Err(WalkFault::OutOfMemory),
    }
}

/// The last of a memo's members, or the position before all events. It fails where memory runs out.
pub fn last_member(alloc: Global, memo: &Memo<Rc<Position>>) -> Result<Rc<Position>, WalkFault>
    ensures ok { IfOk result (λ r. r.value ≡ last_of Start memo.now.pairs) }
    ensures err { IfErr result (λ e. e ≡ OutOfMemory) }
{
    match memo.get(memo.len().saturating_sub(1)) {
        Some(member) => share(member),
        None => put(alloc, Position::Start),
    }
}

/// Notes that no more members come to an operator's memo.
pub fn end_members(memos: &mut Vec<Memo<Rc<Position>>>, op: usize)
    requires { op < length memos.old.items }
    ensures others { OthersStay memos.old.items memos.new.items op }
    ensures ended { let old = slice_index_or memos.old.items op no_pairs in
        slice_index_or memos.new.items op no_pairs ≡ record { pairs = old.pairs; ended = true } }
{
    let memo = &mut memos[op];
    memo.end();
}

/// Whether a key is new after the first few; where it is the newest of all, it is put after them. It fails where memory runs out.
pub fn is_first(list: &mut SeenKeys, key: KeyTuple, count: usize) -> Result<bool, WalkFault>
    requires { count ≤ length list.old }
    ensures err { IfErr result (λ e. e ≡ OutOfMemory) }
    ensures first { IfOk result (λ first. not (was_seen key.items (take count list.old)) ≡ first) }
    ensures within { IfOk result (λ first. first ≡ true → count < length list.new) }
    ensures seen { IfOk result (λ first. first ≡ false → list.new ≡ list.old) }
    ensures grows { (list.new ≡ list.old) ⊎ (list.new ≡ list.old ++ key.items ∷ []) }
    ensures pushed { IsPushed list.old list.new key.items count }
{
    if count < list.len() {
        return Ok(!list.begins_with(count, &key));
    }
    list.push(key)
}

/// Notes that no more members come to the groups of an operator.
pub fn end_groups(walked: &mut Walked, op: usize)
    requires { op < length walked.old.gathered.items }
    ensures others { OthersGathered walked.old walked.new op }
    ensures ended { let old = groups_in walked.old op in
        groups_in walked.new op ≡ record { groups = old.groups; last = old.last; ended = true } }
{
    let gathered = &mut walked.gathered[op];
    gathered.end();
}

/// Notes that a group was walked to a binding of its operator's input.
pub fn reach(walked: &mut Walked, op: usize, to: Reached)
    requires { op < length walked.old.reached.items }
    ensures { IsReached walked.old walked.new op to }
{
    walked.reached[op] = Some(to);
}

/// The position at the last member that was found of the group at a position; `None` exactly where it was not walked or is not known.
pub fn resume(growing: &Growing, op: usize, at: &Position) -> Result<Option<Position>, WalkFault>
    requires op { op < length growing.now.walked.reached.items }
    ensures err { IfErr result (λ e. e ≡ OutOfMemory) }
    ensures later { let reached = growing.now.walked.reached.items in
        IfOk result (λ r. MatchOption r (IsUnknown reached op at.now) (Resumes reached op at.now)) }
{
    let Position::First(_, seen) = at else {
        return Ok(None);
    };
    match &growing.walked.reached[op] {
        Some(reached) if reached.seen == *seen => {
            let below = share(&reached.below)?;
            Ok(Some(Position::Seen(below, *seen)))
        }
        _ => Ok(None),
    }
}
