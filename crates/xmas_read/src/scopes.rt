// Scopes: sources are known, and variables are bound once and before they are used.
ghost use Rattle.std.specs.Prelude.{◌≡◌, [], map, IfOk};
ghost use Rattle.xmas_read.specs.Tree.{bound_names, order_vars, operand_vars, tree_of};
ghost use Rattle.xmas_read.specs.Refusals.{has_name, first_in, unless, unknown_sources, bound_again, unbound_vars, unbound_at, unbound_in, unbound};
ghost use Rattle.mix_catalog.specs.declared.source.SourceSpec.{SourceSpec};

use crate::names::{bound_var, has_name};
use crate::vars::push_element;
use mix_catalog::Catalog;
use mix_tree::Label;
use std::alloc::{AllocError, Global};
use xmas_text::{CondText, OperandText, OrderText, RuleText, VarText};

// Whether a catalog has a source of the name.
fn is_known(catalog: &Catalog, name: &Label) -> bool
    ensures { result ≡ has_name (map (λ (s : SourceSpec). s.name) catalog.now) name.now }
{
    catalog.find(name).is_some()
}

/// The place of the first name of a source that a catalog doesn't have.
pub fn unknown_source(catalog: &Catalog, conds: &[CondText]) -> Option<usize>
    ensures { result ≡ first_in (unknown_sources (map (λ (s : SourceSpec). s.name) catalog.now) conds.now) }
{
    for cond in conds {
        if let CondText::FromSource { at, source, .. } = cond {
            if !is_known(catalog, source) {
                return Some(*at);
            }
        }
    }
    None
}

/// The first variable that a condition binds though an earlier one does.
pub fn bound_twice(alloc: Global, conds: &[CondText]) -> Result<Option<usize>, AllocError>
    ensures { IfOk result (λ at. at ≡ first_in (bound_again [] conds.now)) }
{
    let mut earlier: Vec<Label> = Vec::new(alloc);
    for cond in conds {
        if let Some(var) = bound_var(cond) {
            if has_name(&earlier, &var.name) {
                return Ok(Some(var.at));
            }
            earlier.push(var.name.copy(alloc)?)?;
        }
    }
    Ok(None)
}

// The first variable among these that no condition binds.
fn unbound_among(names: &[Label], vars: &[&VarText]) -> Option<usize>
    ensures { result ≡ first_in (unbound_vars names.now (map (λ v. v.now) vars.now)) }
{
    for var in vars {
        if !has_name(names, &var.name) {
            return Some(var.at);
        }
    }
    None
}

// The place of a variable, unless its name is one of these.
fn unless_bound(names: &[Label], var: &VarText) -> Option<usize>
    ensures { result ≡ first_in (unless (has_name names.now var.now.name) var.now.at) }
{
    if has_name(names, &var.name) {
        None
    } else {
        Some(var.at)
    }
}

// The place of the variable of an operand, where no condition binds it.
fn unbound_operand(names: &[Label], operand: &OperandText) -> Option<usize>
    ensures { result ≡ first_in (unbound_vars names.now (operand_vars operand.now)) }
{
    match operand {
        OperandText::Var(var) => unless_bound(names, var),
        OperandText::Text(_) => None,
    }
}

// The first variable that a condition uses and that isn't bound, or not by the conditions before it where it starts from it.
fn unbound_at(names: &[Label], earlier: &[Label], cond: &CondText) -> Option<usize>
    ensures { result ≡ first_in (unbound_at names.now earlier.now cond.now) }
{
    match cond {
        CondText::FromSource { .. } => None,
        CondText::FromVar { start, .. } => unless_bound(earlier, start),
        CondText::Compare { left, right, .. } => match unless_bound(names, left) {
            Some(at) => Some(at),
            None => unbound_operand(names, right),
        },
    }
}

// The first variable that conditions use and that isn't bound, or not by the conditions before where one starts from it.
fn unbound_cond(
    alloc: Global,
    names: &[Label],
    conds: &[CondText],
) -> Result<Option<usize>, AllocError>
    ensures { IfOk result (λ at. at ≡ first_in (unbound_in names.now [] conds.now)) }
{
    let mut earlier: Vec<Label> = Vec::new(alloc);
    for cond in conds {
        if let Some(at) = unbound_at(names, &earlier, cond) {
            return Ok(Some(at));
        }
        if let Some(var) = bound_var(cond) {
            earlier.push(var.name.copy(alloc)?)?;
        }
    }
    Ok(None)
}

// The place of the variable of an order, where no condition binds it.
fn unbound_order(names: &[Label], order: &Option<OrderText>) -> Option<usize>
    ensures { result ≡ first_in (unbound_vars names.now (order_vars order.now)) }
{
    match order {
        Some(order) => unless_bound(names, &order.var),
        None => None,
    }
}

/// The first variable that isn't bound, or that is started from before it is.
pub fn unbound_var(
    alloc: Global,
    names: &[Label],
    rule: &RuleText,
) -> Result<Option<usize>, AllocError>
    requires { names.now ≡ bound_names (tree_of rule.now).conds }
    ensures { IfOk result (λ at. at ≡ first_in (unbound (tree_of rule.now))) }
{
    let mut vars = Vec::new(alloc);
    push_element(&mut vars, &rule.template)?;
    if let Some(at) = unbound_among(names, &vars) {
        return Ok(Some(at));
    }
    if let Some(at) = unbound_cond(alloc, names, &rule.conds)? {
        return Ok(Some(at));
    }
    Ok(unbound_order(names, &rule.order))
}
