// The rules that a list from a peer must keep.
ghost use Rattle.std.specs.Prelude.{◌≡◌, MatchBool, MatchOption};
ghost use Rattle.lxp_core.specs.Open.{has_node, IsApart};
ghost use Rattle.wire_text.specs.Wired.{nil, without_weights, total_of};
ghost use Rattle.wire_text.specs.Plain.{plain, put};
ghost use Rattle.lxp_remote.specs.Rules.{Breaks, KeepsRules, SumsTo, ToldListsKeepRules};

use crate::Broken;
use wire_text::WireTree;

// Whether a tree is a node.
fn is_node(tree: &WireTree) -> bool
    ensures { result ≡ has_node (without_weights (put tree.now nil)) }
{
    matches!(tree, WireTree::Node { .. })
}

// Whether a list has a node at its top.
fn has_some_node(trees: &[WireTree]) -> bool
    ensures { result ≡ has_node (without_weights (plain trees.now)) }
{
    for tree in trees {
        if is_node(tree) {
            return true;
        }
    }
    false
}

// The nodes and weights of a tree; `None` where they sum to 2^128 or more.
#[cycle(weigh)]
fn tree_total(tree: &WireTree) -> Option<u128>
    ensures { SumsTo result (total_of (put tree.now nil)) }
{
    match tree {
        WireTree::Node { kids, .. } => list_total(kids)?.checked_add(1),
        WireTree::Hole(hole) => Some(hole.weight),
    }
}

// The nodes and weights of a list; `None` where they sum to 2^128 or more.
#[cycle(weigh)]
fn list_total(trees: &[WireTree]) -> Option<u128>
    ensures { SumsTo result (total_of (plain trees.now)) }
{
    let mut sum: u128 = 0;
    for tree in trees {
        sum = sum.checked_add(tree_total(tree)?)?;
    }
    Some(sum)
}

// Whether no two holes stand side by side in any list at any depth.
fn is_apart(trees: &[WireTree]) -> bool
    ensures { MatchBool result (IsApart (without_weights (plain trees.now))) (¬ IsApart (without_weights (plain trees.now))) }
{
    let mut after_hole = false;
    for tree in trees {
        match tree {
            WireTree::Node { kids, .. } => {
                if !is_apart(kids) {
                    return false;
                }
                after_hole = false;
            }
            WireTree::Hole(_) => {
                if after_hole {
                    return false;
                }
                after_hole = true;
            }
        }
    }
    true
}

/// The first rule of progress and weight that a list breaks, which is to weigh no more than its hole.
pub fn broken_rule(trees: &[WireTree], weight: u128) -> Option<Broken>
    ensures { MatchOption result (KeepsRules (plain trees.now) weight) (Breaks (plain trees.now) weight) }
{
    if !trees.is_empty() && !has_some_node(trees) {
        return Some(Broken::HolesOnly);
    }
    if !is_apart(trees) {
        return Some(Broken::AdjacentHoles);
    }
    match list_total(trees) {
        Some(total) if total <= weight => None,
        _ => Some(Broken::Weight),
    }
}

/// What told sources answer breaks no rule.
pub fn told_lists_keep_rules()
    ensures { ToldListsKeepRules }
{}
