// Reading the rule that a text spells.
ghost use Rattle.std.specs.Prelude.{◌≡◌, ◌<◌, ◌^◌, false, IfErr, IfOk, Err, None, length};
ghost use Rattle.std.specs.List.{list_any};
ghost use Rattle.xmas_rule.specs.RuleMade.{rule_of};
ghost use Rattle.xmas_rule.specs.Rules.{IsAccepted, RuleValue};
ghost use Rattle.xmas_read.specs.Tree.{tree_of, bound_names};
ghost use Rattle.xmas_read.specs.Value.{rule_value};
ghost use Rattle.xmas_read.specs.Refusals.{has_path, is_nested, has_many, first_of, size_refusals, scope_refusals, template_refusals, checked};
ghost use Rattle.xmas_read.specs.Results.{names_of_sources, IsOutcome, Answers, Spells};
ghost use Rattle.xmas_read.specs.Again.{IsReadAs};

use crate::XmasFault;
use crate::checks::{scope_refusal, size_refusal, template_refusal};
use crate::conds::conds_of;
use crate::fault::fault_of;
use crate::names::bound_names;
use crate::values::{order_of, template_value};
use mix_catalog::Catalog;
use mix_tree::Label;
use std::alloc::{AllocError, Global};
use xmas_rule::Rule;
use xmas_text::{RuleText, parse_rule};

// The rule of a tree whose paths pass no limit.
fn make_rule(
    alloc: Global,
    catalog: &Catalog,
    names: Vec<Label>,
    tree: RuleText,
) -> Result<Rule, AllocError>
    requires names { names.items ≡ bound_names tree.conds.items }
    requires few { length names.items < 2 ^ 32 }
    requires nesting { list_any (has_path is_nested) tree.conds.items ≡ false }
    requires positions { list_any (has_path has_many) tree.conds.items ≡ false }
    ensures { IfOk result (λ rule. rule_of rule ≡ rule_value (names_of_sources catalog.now) (tree_of tree)) }
{
    let RuleText {
        template: element,
        conds: texts,
        order: ordering,
    } = tree;
    let order = order_of(&names, &ordering);
    let made = template_value(alloc, &names, &element);
    // The element and the ordering are given to `drop`, so that how their parts are dropped is proved once.
    drop(element);
    drop(ordering);
    let template = made?;
    let conds = conds_of(alloc, catalog, &names, texts)?;
    Ok(Rule {
        template,
        conds,
        order,
        names,
    })
}

// The names that a tree binds, or its first refusal.
fn checked_names(alloc: Global, catalog: &Catalog, tree: &RuleText) -> Result<Vec<Label>, XmasFault>
    ensures names { IfOk result (λ names. names.items ≡ bound_names (tree_of tree.now).conds) }
    ensures size { IfOk result (λ _. first_of (size_refusals (tree_of tree.now)) ≡ None) }
    ensures scope { IfOk result (λ _. first_of (scope_refusals (names_of_sources catalog.now) (tree_of tree.now)) ≡ None) }
    ensures template { IfOk result (λ _. first_of (template_refusals (tree_of tree.now)) ≡ None) }
    ensures refused { IfErr result (λ e. IsOutcome (checked (names_of_sources catalog.now) (tree_of tree.now)) (Err e)) }
{
    if let Some(fault) = size_refusal(alloc, tree)? {
        return Err(fault);
    }
    let names = bound_names(alloc, &tree.conds)?;
    if let Some(fault) = scope_refusal(alloc, catalog, &names, tree)? {
        return Err(fault);
    }
    if let Some(fault) = template_refusal(alloc, &names, tree)? {
        return Err(fault);
    }
    Ok(names)
}

// What comes of a tree: its rule, or the first refusal.
fn check_tree(alloc: Global, catalog: &Catalog, tree: RuleText) -> Result<Rule, XmasFault>
    ensures { IsOutcome (checked (names_of_sources catalog.now) (tree_of tree)) result }
{
    match checked_names(alloc, catalog, &tree) {
        Ok(names) => Ok(make_rule(alloc, catalog, names, tree)?),
        Err(fault) => {
            // The tree is given to `drop`, so that how its parts are dropped is proved once.
            drop(tree);
            Err(fault)
        }
    }
}

/// The rule that a text spells over the sources of a catalog (docs/FORMATS.md, "Rules").
///
/// # Errors
///
/// Places count bytes from the beginning of the text. Of the causes that a text has, the first of these is answered, and of one kind
/// the first place in the text:
///
/// - `NotUtf8` with the length of the longest prefix that is UTF-8.
/// - `Unexpected` with the first byte with which no rule's text goes on; `EndsEarly` where a rule's text goes on from the end.
/// - `TooLarge` with the first of `Large` that stands.
/// - `TagDiffers`, `UnknownSource`, `BoundTwice`, `Unbound`, `OuterGroup`, `Loose`, in this order.
///
/// `OutOfMemory` can come with any text.
pub fn read_rule(alloc: Global, text: &[u8], catalog: &Catalog) -> Result<Rule, XmasFault>
    // The answer is that of the text: the rule that it spells, or why none is read.
    ensures answers { Answers text.now (names_of_sources catalog.now) result }

    // What is spelled is read, unless memory runs out.
    ensures only { (v : RuleValue) → Spells text.now (names_of_sources catalog.now) v → IsReadAs v result }
    ensures accepted { IfOk result (λ rule. IsAccepted (length (names_of_sources catalog.now)) (rule_of rule)) }
{
    match parse_rule(alloc, text) {
        Ok(tree) => check_tree(alloc, catalog, tree),
        Err(fault) => Err(fault_of(fault)),
    }
}
