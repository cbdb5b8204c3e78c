//! An example of a buffer's use: the labels of a whole subtree, by the buffer's public contract alone.
#![tactic(auto)]

ghost use Rattle.std.specs.Prelude.{◌≡◌, ◌+◌, ◌*◌, ◌<◌, ◌≤◌, ◌++◌, ◌∷◌, [], true, OnOk, IfOk, IfSome, length};
ghost use Rattle.mix_tree.specs.Forest.{labels_of};
ghost use Rattle.lxp_core.specs.Causes.{HasCause};
ghost use Rattle.lxp_core.specs.View.{document};
ghost use Rattle.tree_buffer.specs.Buffer.{IsSpot, IsSourcesOf, IsSourceOf, Ran, number_of, below};
ghost use Rattle.walk_tree.specs.Walk.{AsksOneLess, AsksTwo, labels_at, labels_from, left};

use lxp_core::{Sources, WalkFault};
use mix_tree::Label;
use std::alloc::Global;
use tree_buffer::{Buffer, Spot, two_calls_run};

/// Puts the labels of the subtree of a node after `out`, in document order. A node takes one step down, and one to the
/// right for each node but the first; over a forward source each step asks at most one fill. `Failed`: the source failed.
/// What was put after `out` before a fault stays.
#[cycle(walking)]
pub fn walk<S: Sources>(
    alloc: Global,
    s: &mut S,
    b: &mut Buffer,
    p: &Spot,
    out: &mut Vec<Label>,
) -> Result<(), WalkFault>
    requires spot { IsSpot b.old p.now }
    requires sources { IsSourcesOf (S.view s.old) b.old }
    ensures ran { Ran S.view S.came_from s.old b.old s.new b.new }
    ensures labels { OnOk result ((S.view s.old).told (number_of b.old) ≡ true
        → out.new.items ≡ out.old.items ++ labels_at (S.view s.old) b.old p.now) }
    ensures few { length out.new.items ≤ length out.old.items + 1 + below (S.view s.old) b.old p.now }
    // Fills.
    ensures steps { OnOk result (AsksOneLess (S.view s.old) b.old (S.view s.new) out.old.items out.new.items) }
    ensures lazy { AsksTwo (S.view s.old) b.old (S.view s.new) out.old.items out.new.items }
    // The cause.
    ensures cause { HasCause (IsSourceOf b.old) (S.view s.old) (S.view s.new) result }
{
    two_calls_run::<S>();
    let label = b.label(p).copy(alloc)?;
    out.push(label)?;
    let first = b.down(alloc, s, p)?;
    walk_from(alloc, s, b, first, out)
}

// Puts the labels of the subtrees from an answer on after `out`.
#[cycle(walking)]
fn walk_from<S: Sources>(
    alloc: Global,
    s: &mut S,
    b: &mut Buffer,
    first: Option<Spot>,
    out: &mut Vec<Label>,
) -> Result<(), WalkFault>
    requires spot { IfSome first (IsSpot b.old) }
    requires sources { IsSourcesOf (S.view s.old) b.old }
    ensures ran { Ran S.view S.came_from s.old b.old s.new b.new }
    ensures labels { OnOk result ((S.view s.old).told (number_of b.old) ≡ true
        → out.new.items ≡ out.old.items ++ labels_from (S.view s.old) b.old first) }
    ensures few { length out.new.items ≤ length out.old.items + left (S.view s.old) b.old first }
    ensures lazy { AsksTwo (S.view s.old) b.old (S.view s.new) out.old.items out.new.items }
    ensures cause { HasCause (IsSourceOf b.old) (S.view s.old) (S.view s.new) result }
{
    two_calls_run::<S>();
    let mut at = first;
    while let Some(spot) = at {
        walk(alloc, s, b, &spot, out)?;
        at = b.right(alloc, s, &spot)?;
    }
    Ok(())
}

/// The labels of a whole document in document order, that of the document node before the others. `Failed`: the source failed.
pub fn walk_all<S: Sources>(alloc: Global, s: &mut S, number: u32) -> Result<Vec<Label>, WalkFault>
    requires { number < (S.view s.old).count }
    ensures came { S.came_from s.old s.new }
    ensures labels { IfOk result (λ labels. (S.view s.old).told number ≡ true
        → labels.items ≡ [] ∷ labels_of (document (S.view s.old) number)) }
    ensures few { IfOk result (λ labels. length labels.items ≤ 1 + (S.view s.old).weight number ((S.view s.old).root number)) }
    ensures lazy { IfOk result (λ labels. (S.view s.old).forward number ≡ true
        → (S.view s.new).fills + 1 ≤ (S.view s.old).fills + 2 * length labels.items) }
    ensures cause { HasCause (λ n. n ≡ number) (S.view s.old) (S.view s.new) result }
{
    let mut buffer = Buffer::open(alloc, s, number)?;
    let mut labels = Vec::new(alloc);
    let top = buffer.top();
    walk(alloc, s, &mut buffer, &top, &mut labels)?;
    Ok(labels)
}
