// What a new bench is made of.
ghost use Rattle.std.specs.Prelude.{◌≡◌, ◌<◌, ◌≤◌, ◌⊎◌, [], ℕ, None, IfOk, length, map, slice_index_or};
ghost use Rattle.plan_core.specs.ByNumber.{op_at};
ghost use Rattle.plan_core.specs.PlanMade.{op_of};
ghost use Rattle.lazy_binding.specs.Opening.{AreBuffers, table_in, HasShortPath};
ghost use Rattle.lazy_binding.specs.Gathered.{no_groups};
ghost use Rattle.lazy_binding.specs.World.{no_pairs};

use crate::gathered::Gathered;
use crate::key::SeenKeys;
use crate::position::{Position, Reached};
use join_memo::Memo;
use lxp_core::Sources;
use path_auto::Auto;
use plan_core::Op;
use std::alloc::{AllocError, Global};
use std::rc::Rc;
use tree_buffer::Buffer;

/// The smaller of two counts.
pub fn smaller(names: usize, most: u32) -> u32
    ensures names { result ≤ names }
    ensures most { result ≤ most }
    ensures either { (result ≡ names) ⊎ (result ≡ most) }
{
    if names < most as usize {
        names as u32
    } else {
        most
    }
}

/// A buffer for each source below this number.
pub fn buffers<S: Sources>(alloc: Global, s: &S, count: u32) -> Result<Vec<Buffer>, AllocError>
    requires { count ≤ (S.view s.now).count }
    ensures length { IfOk result (λ bs. length bs.items ≡ count) }
    ensures buffers { IfOk result (λ bs. AreBuffers (S.view s.now) bs.items) }
{
    let mut opened = Vec::new(alloc);
    for number in 0..count {
        opened.push(Buffer::open(alloc, s, number)?)?;
    }
    Ok(opened)
}

/// The automaton of an operator's path, where it has one.
fn automaton(alloc: Global, op: &Op) -> Result<Option<Auto>, AllocError>
    requires { HasShortPath (op_of op.now) }
    ensures { IfOk result (λ auto. auto ≡ table_in (op_of op.now)) }
{
    match op {
        Op::GetDescendants { path, .. } => Ok(Some(Auto::new(alloc, path)?)),
        _ => Ok(None),
    }
}

/// The automaton of each operator's path, where it has one.
pub fn automata(alloc: Global, ops: &[Op]) -> Result<Vec<Option<Auto>>, AllocError>
    requires { (n : ℕ) → n < length ops.now → HasShortPath (op_at (map op_of ops.now) n) }
    ensures { IfOk result (λ autos. autos.items ≡ map (λ op. table_in (op_of op)) ops.now) }
{
    let mut autos = Vec::new(alloc);
    for op in ops {
        autos.push(automaton(alloc, op)?)?;
    }
    Ok(autos)
}

/// The keys that each operator has seen before any step: none.
pub fn no_keys(alloc: Global, count: usize) -> Result<Vec<SeenKeys>, AllocError>
    ensures length { IfOk result (λ seen. length seen.items ≡ count) }
    ensures none { IfOk result (λ seen. (n : ℕ) → slice_index_or seen.items n [] ≡ []) }
{
    let mut seen = Vec::new(alloc);
    for _ in 0..count {
        seen.push(SeenKeys::new(alloc))?;
    }
    Ok(seen)
}

/// The memo of each operator before any step: one without members.
pub fn no_memos(alloc: Global, count: usize) -> Result<Vec<Memo<Rc<Position>>>, AllocError>
    ensures length { IfOk result (λ memos. length memos.items ≡ count) }
    ensures none { IfOk result (λ memos. (n : ℕ) → slice_index_or memos.items n no_pairs ≡ no_pairs) }
{
    let mut memos = Vec::new(alloc);
    for _ in 0..count {
        memos.push(Memo::new(alloc))?;
    }
    Ok(memos)
}

/// How far the group at hand of each operator was walked before any step: not at all.
pub fn none_reached(alloc: Global, count: usize) -> Result<Vec<Option<Reached>>, AllocError>
    ensures length { IfOk result (λ reached. length reached.items ≡ count) }
    ensures none { IfOk result (λ reached. (n : ℕ) → slice_index_or reached.items n None ≡ None) }
{
    let mut reached = Vec::new(alloc);
    for _ in 0..count {
        reached.push(None)?;
    }
    Ok(reached)
}

/// The members that were found of the groups of each operator before any step: none.
pub fn none_gathered(alloc: Global, count: usize) -> Result<Vec<Gathered>, AllocError>
    ensures length { IfOk result (λ gathered. length gathered.items ≡ count) }
    ensures none { IfOk result (λ gathered. (n : ℕ) → slice_index_or gathered.items n no_groups ≡ no_groups) }
{
    let mut gathered = Vec::new(alloc);
    for _ in 0..count {
        gathered.push(Gathered::new(alloc))?;
    }
    Ok(gathered)
}
