// Searching the later siblings of a node.
ghost use Rattle.std.specs.Prelude.{IfOk};
ghost use Rattle.lxp_core.specs.View.{View};
ghost use Rattle.mix_session.specs.Meaning.{Meaning, Stays};
ghost use Rattle.mix_session.specs.Seeking.{IsSelected};
ghost use Rattle.mix_session.specs.Searches.{IsFirst, ahead_at};
ghost use Rattle.mix_session.specs.Printing.{CostsOn};
ghost use Rattle.mix_session.specs.Tolls.{select_toll};

use crate::walker::{Found, Walker};
use lxp_core::Sources;
use mix_script::Way;
use mix_tree::{Label, same_label};
use std::alloc::{AllocError, Global};

// The first node with a label among a node to which a walk led and its later siblings.
fn search<W: Walker, S: Sources>(
    alloc: Global,
    s: &mut S,
    walker: &mut W,
    first: W::Node,
    label: &Label,
) -> Result<Found<W::Node>, AllocError>
    requires ready { (W.means (S.view s.old) walker.old).IsReady }
    requires node { (W.means (S.view s.old) walker.old).IsNode first }
    requires walked { (W.means (S.view s.old) walker.old).IsWalked first }
    ensures came { S.came_from s.old s.new }
    ensures kept { W.keeps (S.view s.old) walker.old (S.view s.new) walker.new }
    ensures stays { Stays (W.means (S.view s.old) walker.old) (W.means (S.view s.new) walker.new) }
    ensures found { let m = W.means (S.view s.old) walker.old in let m' = W.means (S.view s.new) walker.new in
        IfOk result (IsFirst m m' (S.view s.old).faults (S.view s.new).faults label.now first) }
    ensures cost { CostsOn (W.means (S.view s.old) walker.old) first (S.view s.old).fills (S.view s.new).fills
        (λ toll t p. ahead_at toll t label.now p) }
{
    let mut node = first;
    'siblings: loop {
        if same_label(walker.read_label(&node), label) {
            return Ok(Found::Node(node));
        }
        match walker.seek(alloc, s, Way::Right, &node)? {
            Found::Node(next) => node = next,
            Found::None => return Ok(Found::None),
            Found::Fault(source) => return Ok(Found::Fault(source)),
        }
    }
}

/// The first later sibling of a node with a label. Labels are compared where they lie. Every earlier node stays, whatever is
/// answered, and after want of memory.
pub fn select<W: Walker, S: Sources>(
    alloc: Global,
    s: &mut S,
    walker: &mut W,
    n: &W::Node,
    label: &Label,
) -> Result<Found<W::Node>, AllocError>
    requires ready { (W.means (S.view s.old) walker.old).IsReady }
    requires node { (W.means (S.view s.old) walker.old).IsNode n.now }
    ensures came { S.came_from s.old s.new }
    ensures kept { W.keeps (S.view s.old) walker.old (S.view s.new) walker.new }
    ensures stays { Stays (W.means (S.view s.old) walker.old) (W.means (S.view s.new) walker.new) }
    ensures found { let m = W.means (S.view s.old) walker.old in let m' = W.means (S.view s.new) walker.new in
        IfOk result (IsSelected m m' (S.view s.old).faults (S.view s.new).faults label.now n.now) }
    ensures cost { CostsOn (W.means (S.view s.old) walker.old) n.now (S.view s.old).fills (S.view s.new).fills
        (λ toll t p. select_toll toll t label.now p) }
{
    match walker.seek(alloc, s, Way::Right, n)? {
        Found::Node(first) => search(alloc, s, walker, first, label),
        Found::None => Ok(Found::None),
        Found::Fault(source) => Ok(Found::Fault(source)),
    }
}
