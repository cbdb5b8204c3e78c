// The text of a subtree.
ghost use Rattle.std.specs.Prelude.{◌≡◌, ◌++◌, None, IfOk, OnOk};
ghost use Rattle.lxp_core.specs.View.{View};
ghost use Rattle.mix_session.specs.Meaning.{Meaning, Stays};
ghost use Rattle.mix_session.specs.Printing.{CostsOn, FailsBy, IsPaidFor, IsPrinted, IsStepTo, IsThere, OpensTree, PrintsBelow, PrintsOne, PrintsTree, Walked, closing, opening};
ghost use Rattle.mix_session.specs.Tolls.{one_toll, print_toll, siblings_toll};
ghost use Rattle.mix_script.specs.Allowed.{mark_of};
ghost use Rattle.mix_script.specs.declared.step.Way.TheVariants.{Down, Right};

use crate::walker::{Found, Walker};
use lazy_plan::WalkFault;
use lxp_core::Sources;
use mix_script::{Answer, Text, Way};
use mix_tree::push_label;
use std::alloc::{AllocError, Global};

// The node to which a way leads from a node, where no source fails.
fn step<W: Walker, S: Sources>(
    alloc: Global,
    s: &mut S,
    walker: &mut W,
    way: Way,
    n: &W::Node,
) -> Result<Option<W::Node>, WalkFault>
    requires ready { (W.means (S.view s.old) walker.old).IsReady }
    requires node { (W.means (S.view s.old) walker.old).IsNode n.now }
    ensures came { S.came_from s.old s.new }
    ensures kept { W.keeps (S.view s.old) walker.old (S.view s.new) walker.new }
    ensures stays { Stays (W.means (S.view s.old) walker.old) (W.means (S.view s.new) walker.new) }
    ensures found { let m = W.means (S.view s.old) walker.old in let m' = W.means (S.view s.new) walker.new in
        IfOk result (IsStepTo m m' way n.now) }
    ensures cause { let m = W.means (S.view s.old) walker.old in FailsBy m.course.MayFail (S.view s.old).faults (S.view s.new).faults result }
    ensures cost { CostsOn (W.means (S.view s.old) walker.old) n.now (S.view s.old).fills (S.view s.new).fills (λ toll t p. toll way p) }
{
    match walker.seek(alloc, s, way, n)? {
        Found::Node(node) => Ok(Some(node)),
        Found::None => Ok(None),
        Found::Fault(source) => Err(WalkFault::Failed(source)),
    }
}

// Puts an opening bracket after a text where there is a first child.
fn put_opening<N: Drop>(first: Option<N>, text: &mut Vec<u8>) -> Result<Option<N>, AllocError>
    ensures { IfOk result (λ r. (r ≡ first) × (text.new.items ≡ text.old.items ++ opening first)) }
{
    if first.is_some() {
        text.push(b'[')?;
    }
    Ok(first)
}

// Puts after a tree's text a comma where there is a next sibling, and a closing bracket where there is none.
fn put_closing<N: Drop>(next: Option<N>, text: &mut Vec<u8>) -> Result<Option<N>, AllocError>
    ensures { IfOk result (λ r. (r ≡ next) × (text.new.items ≡ text.old.items ++ closing next)) }
{
    text.push(if next.is_some() { b',' } else { b']' })?;
    Ok(next)
}

// Puts the label of a node after a text, and an opening bracket where it has children: the first of these.
fn open_tree<W: Walker, S: Sources>(
    alloc: Global,
    s: &mut S,
    walker: &mut W,
    n: &W::Node,
    text: &mut Vec<u8>,
) -> Result<Option<W::Node>, WalkFault>
    requires ready { (W.means (S.view s.old) walker.old).IsReady }
    requires node { (W.means (S.view s.old) walker.old).IsNode n.now }
    ensures came { S.came_from s.old s.new }
    ensures kept { W.keeps (S.view s.old) walker.old (S.view s.new) walker.new }
    ensures there { IsThere (W.means (S.view s.old) walker.old) n.now }
    ensures walked { let m = W.means (S.view s.old) walker.old in
        Walked m (W.means (S.view s.new) walker.new) (S.view s.old) (S.view s.new) n.now (λ toll t p. toll Down p) result }
    ensures text { let m = W.means (S.view s.old) walker.old in let m' = W.means (S.view s.new) walker.new in
        IfOk result (OpensTree m m' n.now text.old.items text.new.items) }
{
    push_label(text, walker.read_label(n))?;
    let first = step(alloc, s, walker, Way::Down, n)?;
    Ok(put_opening(first, text)?)
}

// The next sibling of a node; a comma was put after a text where there is one, and a closing bracket where there is none.
fn next_tree<W: Walker, S: Sources>(
    alloc: Global,
    s: &mut S,
    walker: &mut W,
    n: &W::Node,
    text: &mut Vec<u8>,
) -> Result<Option<W::Node>, WalkFault>
    requires ready { (W.means (S.view s.old) walker.old).IsReady }
    requires node { (W.means (S.view s.old) walker.old).IsNode n.now }
    ensures came { S.came_from s.old s.new }
    ensures kept { W.keeps (S.view s.old) walker.old (S.view s.new) walker.new }
    ensures walked { let m = W.means (S.view s.old) walker.old in
        Walked m (W.means (S.view s.new) walker.new) (S.view s.old) (S.view s.new) n.now (λ toll t p. toll Right p) result }
    ensures text { let m = W.means (S.view s.old) walker.old in let m' = W.means (S.view s.new) walker.new in
        IfOk result (λ r. (text.new.items ≡ text.old.items ++ closing r) × IsStepTo m m' Right n.now r) }
{
    let next = step(alloc, s, walker, Way::Right, n)?;
    Ok(put_closing(next, text)?)
}

// Puts the canonical text of the subtree of a node after a text.
#[cycle(printing)]
fn print_tree<W: Walker, S: Sources>(
    alloc: Global,
    s: &mut S,
    walker: &mut W,
    n: &W::Node,
    text: &mut Vec<u8>,
) -> Result<(), WalkFault>
    requires ready { (W.means (S.view s.old) walker.old).IsReady }
    requires node { (W.means (S.view s.old) walker.old).IsNode n.now }
    ensures came { S.came_from s.old s.new }
    ensures kept { W.keeps (S.view s.old) walker.old (S.view s.new) walker.new }
    ensures there { IsThere (W.means (S.view s.old) walker.old) n.now }
    ensures walked { let m = W.means (S.view s.old) walker.old in
        Walked m (W.means (S.view s.new) walker.new) (S.view s.old) (S.view s.new) n.now print_toll result }
    ensures text { let m = W.means (S.view s.old) walker.old in OnOk result (PrintsTree m n.now text.old.items text.new.items) }
    ensures paid { OnOk result (IsPaidFor (W.means (S.view s.old) walker.old) (W.means (S.view s.new) walker.new) n.now) }
{
    match open_tree(alloc, s, walker, n, text)? {
        Some(first) => print_trees(alloc, s, walker, first, text),
        None => Ok(()),
    }
}

// Puts the text of the subtree of a node after a text, and what stands after it: its next sibling.
#[cycle(printing)]
fn print_one<W: Walker, S: Sources>(
    alloc: Global,
    s: &mut S,
    walker: &mut W,
    n: &W::Node,
    text: &mut Vec<u8>,
) -> Result<Option<W::Node>, WalkFault>
    requires ready { (W.means (S.view s.old) walker.old).IsReady }
    requires node { (W.means (S.view s.old) walker.old).IsNode n.now }
    ensures came { S.came_from s.old s.new }
    ensures kept { W.keeps (S.view s.old) walker.old (S.view s.new) walker.new }
    ensures there { IsThere (W.means (S.view s.old) walker.old) n.now }
    ensures walked { let m = W.means (S.view s.old) walker.old in
        Walked m (W.means (S.view s.new) walker.new) (S.view s.old) (S.view s.new) n.now one_toll result }
    ensures text { let m = W.means (S.view s.old) walker.old in let m' = W.means (S.view s.new) walker.new in
        IfOk result (PrintsOne m m' n.now text.old.items text.new.items) }
{
    print_tree(alloc, s, walker, n, text)?;
    next_tree(alloc, s, walker, n, text)
}

// Puts the texts of the subtrees of a node to which a walk led and of its later siblings after a text, with commas between them and
// a closing bracket.
#[cycle(printing)]
fn print_trees<W: Walker, S: Sources>(
    alloc: Global,
    s: &mut S,
    walker: &mut W,
    first: W::Node,
    text: &mut Vec<u8>,
) -> Result<(), WalkFault>
    requires ready { (W.means (S.view s.old) walker.old).IsReady }
    requires node { (W.means (S.view s.old) walker.old).IsNode first }
    requires walked { (W.means (S.view s.old) walker.old).IsWalked first }
    ensures came { S.came_from s.old s.new }
    ensures kept { W.keeps (S.view s.old) walker.old (S.view s.new) walker.new }
    ensures walked { let m = W.means (S.view s.old) walker.old in
        Walked m (W.means (S.view s.new) walker.new) (S.view s.old) (S.view s.new) first siblings_toll result }
    ensures text { let m = W.means (S.view s.old) walker.old in OnOk result (PrintsBelow m first text.old.items text.new.items) }
{
    let mut node = first;
    'trees: loop {
        match print_one(alloc, s, walker, &node, text)? {
            Some(next) => node = next,
            None => return Ok(()),
        }
    }
}

/// The answer that is the canonical text of the subtree of a node, or a fault of the source that failed on the way. After a text
/// nothing is owed for the node. Every earlier node stays, whatever is answered, and after want of memory.
pub fn print<W: Walker, S: Sources>(
    alloc: Global,
    s: &mut S,
    walker: &mut W,
    n: &W::Node,
) -> Result<Answer, AllocError>
    requires ready { (W.means (S.view s.old) walker.old).IsReady }
    requires node { (W.means (S.view s.old) walker.old).IsNode n.now }
    ensures came { S.came_from s.old s.new }
    ensures kept { W.keeps (S.view s.old) walker.old (S.view s.new) walker.new }
    ensures stays { Stays (W.means (S.view s.old) walker.old) (W.means (S.view s.new) walker.new) }
    ensures printed { let m = W.means (S.view s.old) walker.old in IfOk result (IsPrinted m (S.view s.old).faults (S.view s.new).faults n.now) }
    ensures paid { let m = W.means (S.view s.old) walker.old in let m' = W.means (S.view s.new) walker.new in
        IfOk result (λ a. mark_of a ≡ None → IsPaidFor m m' n.now) }
    ensures cost { CostsOn (W.means (S.view s.old) walker.old) n.now (S.view s.old).fills (S.view s.new).fills print_toll }
{
    let mut text = Vec::new(alloc);
    match print_tree(alloc, s, walker, n, &mut text) {
        Ok(()) => Ok(Answer::Text(Text::new(text))),
        Err(WalkFault::Failed(source)) => Ok(Answer::Fault(source)),
        Err(WalkFault::OutOfMemory) => Err(AllocError),
    }
}
