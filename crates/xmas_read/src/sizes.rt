// Sizes: how much of everything a rule has.
ghost use Rattle.std.specs.Prelude.{◌≡◌, ◌-◌, ◌++◌, nat_lt, map, length, cond, Some, None, IfOk, OnOk, ◌∷◌, []};
ghost use Rattle.std.specs.List.{list_any};
ghost use Rattle.std.specs.Str.{bytes_eq};
ghost use Rattle.mix_base.specs.Groups.{firsts};
ghost use Rattle.xmas_text.specs.Elements.{contents_of};
ghost use Rattle.xmas_read.specs.Tree.{items_in, tree_of};
ghost use Rattle.xmas_read.specs.Refusals.{has_name, different_vars, is_nested, has_many, has_path};

use crate::names::has_name;
use crate::vars::all_vars;
use mix_tree::Label;
use std::alloc::{AllocError, Global};
use xmas_text::{CondText, ElementText, ItemText, PathLimit, PathText, RuleText, VarText};

/// How many items a template has at most, at any depth.
pub const ITEMS: usize = 1_000;

/// How many different variables a rule has at most.
pub const VARIABLES: usize = 60;

// How much of the room an item leaves, those inside it included; `None` where there are more.
#[cycle(items)]
fn spend_one(room: usize, item: &ItemText) -> Option<usize>
    ensures { result ≡ cond (nat_lt room (items_in (contents_of (item.now ∷ [])))) None (Some (room - items_in (contents_of (item.now ∷ [])))) }
{
    let room = room.checked_sub(1)?;
    match item {
        ItemText::Element(element) => spend_items(room, &element.items),
        ItemText::Node(_) | ItemText::LabelOf(_) | ItemText::Text(_) => Some(room),
    }
}

// How much of the room some items leave, those inside them included; `None` where there are more.
#[cycle(items)]
fn spend_items(room: usize, items: &[ItemText]) -> Option<usize>
    ensures { result ≡ cond (nat_lt room (items_in (contents_of items.now))) None (Some (room - items_in (contents_of items.now))) }
{
    let mut room = room;
    for item in items {
        room = spend_one(room, item)?;
    }
    Some(room)
}

/// Whether an element has too many items.
pub fn has_many_items(element: &ElementText) -> bool
    ensures { result ≡ nat_lt 1000 (items_in element.now.contents) }
{
    spend_items(ITEMS, &element.items).is_none()
}

// Adds a name, unless it is there.
fn note_name(alloc: Global, names: &mut Vec<Label>, name: &Label) -> Result<(), AllocError>
    ensures { OnOk result (names.new.items ≡ cond (has_name names.old.items name.now) names.old.items (names.old.items ++ name.now ∷ [])) }
{
    if !has_name(names, name) {
        names.push(name.copy(alloc)?)?;
    }
    Ok(())
}

// Whether more than 60 different names are among those of variables.
fn have_many_names(alloc: Global, vars: &[&VarText]) -> Result<bool, AllocError>
    ensures { IfOk result (λ is. is ≡ nat_lt 60 (length (firsts bytes_eq (map (λ v. v.now.name) vars.now)))) }
{
    let mut names: Vec<Label> = Vec::new(alloc);
    for var in vars {
        note_name(alloc, &mut names, &var.name)?;
        if names.len() > VARIABLES {
            return Ok(true);
        }
    }
    Ok(false)
}

/// Whether a rule has too many different variables, bound or not.
pub fn has_many_vars(alloc: Global, rule: &RuleText) -> Result<bool, AllocError>
    ensures { IfOk result (λ is. is ≡ nat_lt 60 (different_vars (tree_of rule.now))) }
{
    let vars = all_vars(alloc, rule)?;
    have_many_names(alloc, &vars)
}

// Whether a path has a parenthesis open inside 100 others.
fn is_nested_path(path: &PathText) -> bool
    ensures { result ≡ is_nested path.now }
{
    matches!(path, Err(PathLimit::Nesting))
}

// Whether a path has more than 120 label positions.
fn has_many_positions(path: &PathText) -> bool
    ensures { result ≡ has_many path.now }
{
    matches!(path, Err(PathLimit::Positions))
}

// Whether a condition's path has a parenthesis open inside 100 others.
fn nests(cond: &CondText) -> bool
    ensures { result ≡ has_path is_nested cond.now }
{
    match cond {
        CondText::FromSource { path, .. } | CondText::FromVar { path, .. } => is_nested_path(path),
        CondText::Compare { .. } => false,
    }
}

// Whether a condition's path has more than 120 label positions.
fn is_long(cond: &CondText) -> bool
    ensures { result ≡ has_path has_many cond.now }
{
    match cond {
        CondText::FromSource { path, .. } | CondText::FromVar { path, .. } => {
            has_many_positions(path)
        }
        CondText::Compare { .. } => false,
    }
}

/// Whether the path of a condition is nested too deep.
pub fn has_nested_path(conds: &[CondText]) -> bool
    ensures { result ≡ list_any (has_path is_nested) conds.now }
{
    conds.iter().any(|cond| nests(cond))
}

/// Whether the path of a condition has too many label positions.
pub fn has_long_path(conds: &[CondText]) -> bool
    ensures { result ≡ list_any (has_path has_many) conds.now }
{
    conds.iter().any(|cond| is_long(cond))
}
