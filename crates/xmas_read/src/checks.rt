// The checks of a rule's tree, in the order in which one refusal goes before another.
ghost use Rattle.std.specs.Prelude.{◌≡◌, ◌<◌, ◌^◌, IfOk, length};
ghost use Rattle.xmas_read.specs.Tree.{tree_of, bound_names};
ghost use Rattle.xmas_read.specs.Refusals.{first_in, outer_keys, first_of, size_refusals, scope_refusals, template_refusals};
ghost use Rattle.xmas_read.specs.Results.{names_of_sources};

use crate::loose::loose_item;
use crate::scopes::{bound_twice, unbound_var, unknown_source};
use crate::sizes::{has_long_path, has_many_items, has_many_vars, has_nested_path};
use crate::tags::differing_tag;
use crate::{Large, XmasFault};
use mix_catalog::Catalog;
use mix_tree::Label;
use std::alloc::{AllocError, Global};
use xmas_text::{GroupText, RuleText};

/// How many conditions a rule has at most.
const CONDITIONS: usize = 100;

/// What a rule has too much of, where it has.
pub fn size_refusal(alloc: Global, rule: &RuleText) -> Result<Option<XmasFault>, AllocError>
    ensures { IfOk result (λ fault. fault ≡ first_of (size_refusals (tree_of rule.now))) }
{
    let large = if has_many_items(&rule.template) {
        Large::Items
    } else if has_many_vars(alloc, rule)? {
        Large::Variables
    } else if rule.conds.len() > CONDITIONS {
        Large::Conditions
    } else if has_nested_path(&rule.conds) {
        Large::Nesting
    } else if has_long_path(&rule.conds) {
        Large::Positions
    } else {
        return Ok(None);
    };
    Ok(Some(XmasFault::TooLarge(large)))
}

/// A tag that differs, a source that there is not, or a variable out of scope: the first of these.
pub fn scope_refusal(
    alloc: Global,
    catalog: &Catalog,
    names: &[Label],
    rule: &RuleText,
) -> Result<Option<XmasFault>, AllocError>
    requires { names.now ≡ bound_names (tree_of rule.now).conds }
    ensures { IfOk result (λ fault. fault ≡ first_of (scope_refusals (names_of_sources catalog.now) (tree_of rule.now))) }
{
    if let Some(at) = differing_tag(&rule.template) {
        return Ok(Some(XmasFault::TagDiffers(at)));
    }
    if let Some(at) = unknown_source(catalog, &rule.conds) {
        return Ok(Some(XmasFault::UnknownSource(at)));
    }
    if let Some(at) = bound_twice(alloc, &rule.conds)? {
        return Ok(Some(XmasFault::BoundTwice(at)));
    }
    match unbound_var(alloc, names, rule)? {
        Some(at) => Ok(Some(XmasFault::Unbound(at))),
        None => Ok(None),
    }
}

// The place of the outer element's group label, where it has keys.
fn outer_group(group: &Option<GroupText>) -> Option<usize>
    ensures { result ≡ first_in (outer_keys group.now) }
{
    match group {
        Some(group) if !group.keys.is_empty() => Some(group.at),
        _ => None,
    }
}

/// Keys of the outer element, or a loose item: the first of these.
pub fn template_refusal(
    alloc: Global,
    names: &[Label],
    rule: &RuleText,
) -> Result<Option<XmasFault>, AllocError>
    requires names { names.now ≡ bound_names (tree_of rule.now).conds }
    requires few { length names.now < 2 ^ 32 }
    ensures { IfOk result (λ fault. fault ≡ first_of (template_refusals (tree_of rule.now))) }
{
    if let Some(at) = outer_group(&rule.template.group) {
        return Ok(Some(XmasFault::OuterGroup(at)));
    }
    match loose_item(alloc, names, &[], &rule.template.items)? {
        Some(at) => Ok(Some(XmasFault::Loose(at))),
        None => Ok(None),
    }
}
