// Stacks of trees with holes, of which the last is the first of the list.
ghost use Rattle.std.specs.Prelude.{◌≡◌, ◌+◌, ◌<◌, ◌≤◌, ◌++◌, ◌∷◌, [], List, true, false, MatchOption, OnOk, OnErr, length, reverse};
ghost use Rattle.lxp_core.specs.Causes.{HasCause};
ghost use Rattle.lxp_core.specs.declared.open_tree.HoleId.{HoleId};
ghost use Rattle.lxp_core.specs.declared.open_tree.OpenTree.{OpenTree};
ghost use Rattle.lxp_core.specs.declared.open_tree.OpenTree.TheVariants.{Hole};
ghost use Rattle.lxp_core.specs.Open.{Open, nil, node, AllHoles, IsApart, begins_with_hole, open_followed};
ghost use Rattle.lxp_core.specs.Plain.{put, stacked, plain};
ghost use Rattle.lxp_core.specs.View.{Keeps};
ghost use Rattle.tree_buffer.specs.Fills.{IsRefined, IsLazy, left_in};

use lxp_core::{HoleId, OpenTree, SourceFault, Sources, WalkFault};
use mix_tree::Label;
use std::alloc::{AllocError, Global};
use std::mem::replace;

// The hole at the top of a stack, where one stands there.
fn top_hole(stack: &Vec<OpenTree>) -> Option<HoleId>
    ensures { MatchOption result (begins_with_hole (stacked stack.now.items nil) ≡ false)
        (λ h. (rest : List OpenTree) × (stack.now.items ≡ rest ++ Hole h ∷ [])) }
{
    match stack.last() {
        Some(OpenTree::Hole(h)) => Some(*h),
        Some(OpenTree::Node { .. }) => None,
        None => None,
    }
}

// Reverses a list of trees. Most have one tree and stay, and the test is the whole cost.
#[inline(always)]
fn turn_round(list: &mut Vec<OpenTree>)
    ensures { list.new.items ≡ reverse list.old.items }
{
    if list.len() > 1 {
        list.reverse();
    }
}

// Frees a stack that holds a hole and nothing else.
fn free_hole(mut stack: Vec<OpenTree>)
    requires { (h : HoleId) × (stack.items ≡ Hole h ∷ []) }
{
    match stack.take_last() {
        OpenTree::Hole(_) => stack.destroy_empty(),
        OpenTree::Node { .. } => unreachable!(),
    }
}

// Puts a list in the place of the hole at the top of a stack. Where the stack holds nothing else, the list becomes the stack.
#[inline(always)]
fn replace_top(stack: &mut Vec<OpenTree>, mut list: Vec<OpenTree>) -> Result<(), AllocError>
    requires { (prefix : List OpenTree) × (h : HoleId) × (stack.old.items ≡ prefix ++ Hole h ∷ []) }
    ensures ok { OnOk result ((prefix : List OpenTree) (top : OpenTree) → stack.old.items ≡ prefix ++ top ∷ []
        → stacked stack.new.items nil ≡ open_followed (plain list.items) (stacked prefix nil)) }
    ensures err { OnErr result (stack.new.items ≡ stack.old.items) }
{
    turn_round(&mut list);
    let at = stack.len() - 1;
    if at == 0 {
        free_hole(replace(stack, list));
        return Ok(());
    }
    stack.append(&mut list)?;
    let _ = stack.remove(at);
    Ok(())
}

// One fill of the hole at the top. It stands apart, since what a source does in a fill takes much of the stack, and most calls ask none.
#[inline(never)]
fn refill<S: Sources>(
    alloc: Global,
    s: &mut S,
    number: u32,
    hole: HoleId,
    stack: &mut Vec<OpenTree>,
) -> Result<(), WalkFault>
    requires number { number < (S.view s.old).count }
    requires top { (prefix : List OpenTree) × (stack.old.items ≡ prefix ++ Hole hole ∷ []) }
    requires known { AllHoles ((S.view s.old).knows number) (stacked stack.old.items nil) }
    requires apart { IsApart (stacked stack.old.items nil) }
    ensures came { S.came_from s.old s.new }
    ensures keeps { Keeps (S.view s.old) (S.view s.new) }
    ensures refined { IsRefined (S.view s.old) (S.view s.new) number (stacked stack.old.items nil) (stacked stack.new.items nil) }
    ensures lazy { OnOk result (IsLazy (S.view s.old) (S.view s.new) number (stacked stack.old.items nil) (stacked stack.new.items nil)) }
    ensures at_most_one { (S.view s.new).fills ≤ (S.view s.old).fills + 1 }
    ensures falls { OnOk result (left_in (S.view s.new) number stack.new.items < left_in (S.view s.old) number stack.old.items) }
    ensures cause { HasCause (λ n. n ≡ number) (S.view s.old) (S.view s.new) result }
{
    let list = match s.fill(alloc, number, hole) {
        Ok(list) => list,
        Err(SourceFault::Failed) => return Err(WalkFault::Failed(number)),
        Err(SourceFault::OutOfMemory) => return Err(WalkFault::OutOfMemory),
        Err(SourceFault::UnknownHole) => unreachable!(),
    };
    replace_top(stack, list)?;
    Ok(())
}

// Asks fills until no hole stands at the top of a stack.
pub(crate) fn settle<S: Sources>(
    alloc: Global,
    s: &mut S,
    number: u32,
    stack: &mut Vec<OpenTree>,
) -> Result<(), WalkFault>
    requires number { number < (S.view s.old).count }
    requires known { AllHoles ((S.view s.old).knows number) (stacked stack.old.items nil) }
    requires apart { IsApart (stacked stack.old.items nil) }
    ensures came { S.came_from s.old s.new }
    ensures keeps { Keeps (S.view s.old) (S.view s.new) }
    ensures refined { IsRefined (S.view s.old) (S.view s.new) number (stacked stack.old.items nil) (stacked stack.new.items nil) }
    ensures settled { OnOk result (begins_with_hole (stacked stack.new.items nil) ≡ false) }
    ensures lazy { (S.view s.old).forward number ≡ true → (S.view s.new).fills ≤ (S.view s.old).fills + 1 }
    ensures whole { begins_with_hole (stacked stack.old.items nil) ≡ false → s.new ≡ s.old }
    ensures cause { HasCause (λ n. n ≡ number) (S.view s.old) (S.view s.new) result }
{
    while let Some(hole) = top_hole(stack) {
        refill(alloc, s, number, hole, stack)?;
    }
    Ok(())
}

// A tree's label, and the stack of its children.
#[inline(always)]
fn parts_of(tree: OpenTree) -> (Label, Vec<OpenTree>)
    requires { (rest : Open) × (begins_with_hole (put tree rest) ≡ false) }
    ensures { (rest : Open) → put tree rest ≡ node result.0 (stacked result.1.items nil) rest }
{
    match tree {
        OpenTree::Node { label, kids } => {
            let mut stack = kids;
            turn_round(&mut stack);
            (label, stack)
        }
        OpenTree::Hole(_) => unreachable!(),
    }
}

// The stack as it is kept: an empty one takes no memory.
#[inline(always)]
fn free_when_empty(stack: &mut Vec<OpenTree>)
    ensures { stack.new.items ≡ stack.old.items }
{
    if stack.is_empty() {
        stack.shrink_to_fit();
    }
}

// Takes the tree at the top: its label, and the stack of its children.
#[inline(always)]
pub(crate) fn pop_tree(stack: &mut Vec<OpenTree>) -> (Label, Vec<OpenTree>)
    requires some { 0 < length stack.old.items }
    requires top { begins_with_hole (stacked stack.old.items nil) ≡ false }
    ensures { stacked stack.old.items nil ≡ node result.0 (stacked result.1.items nil) (stacked stack.new.items nil) }
{
    let tree = stack.take_last();
    free_when_empty(stack);
    parts_of(tree)
}
