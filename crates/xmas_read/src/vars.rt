// The variables of a rule's text, in the order of the text.
ghost use Rattle.std.specs.Prelude.{◌≡◌, ◌++◌, ◌∷◌, [], IfOk, OnOk, map};
ghost use Rattle.xmas_text.specs.Elements.{contents_of};
ghost use Rattle.xmas_read.specs.Tree.{keys_vars, group_vars, contents_vars, template_vars, conds_vars, cond_vars, order_vars, vars_of, tree_of};

use std::alloc::{AllocError, Global};
use xmas_text::{
    CondText, ElementText, GroupText, ItemText, KeyText, OperandText, OrderText, RuleText, VarText,
};

// Adds the variables of keys.
fn push_keys<'a>(vars: &mut Vec<&'a VarText>, keys: &'a [KeyText]) -> Result<(), AllocError>
    ensures { OnOk result (map (λ v. v.now) vars.new.items ≡ map (λ v. v.now) vars.old.items ++ keys_vars keys.now) }
{
    for key in keys {
        match key {
            KeyText::Node(var) | KeyText::LabelOf(var) => vars.push(var)?,
        }
    }
    Ok(())
}

// Adds the variables of a group label.
fn push_group<'a>(
    vars: &mut Vec<&'a VarText>,
    group: &'a Option<GroupText>,
) -> Result<(), AllocError>
    ensures { OnOk result (map (λ v. v.now) vars.new.items ≡ map (λ v. v.now) vars.old.items ++ group_vars group.now) }
{
    if let Some(group) = group {
        push_keys(vars, &group.keys)?;
    }
    Ok(())
}

// Adds the variables of an item.
#[cycle(vars)]
fn push_item<'a>(vars: &mut Vec<&'a VarText>, item: &'a ItemText) -> Result<(), AllocError>
    ensures { OnOk result (map (λ v. v.now) vars.new.items ≡ map (λ v. v.now) vars.old.items ++ contents_vars (contents_of (item.now ∷ []))) }
{
    match item {
        ItemText::Element(element) => push_element(vars, element),
        ItemText::Node(shown) | ItemText::LabelOf(shown) => {
            vars.push(&shown.var)?;
            push_group(vars, &shown.group)
        }
        ItemText::Text(_) => Ok(()),
    }
}

// Adds the variables of items.
#[cycle(vars)]
fn push_items<'a>(vars: &mut Vec<&'a VarText>, items: &'a [ItemText]) -> Result<(), AllocError>
    ensures { OnOk result (map (λ v. v.now) vars.new.items ≡ map (λ v. v.now) vars.old.items ++ contents_vars (contents_of items.now)) }
{
    for item in items {
        push_item(vars, item)?;
    }
    Ok(())
}

/// Adds the variables of an element, and of what stands inside it.
#[cycle(vars)]
pub fn push_element<'a>(
    vars: &mut Vec<&'a VarText>,
    element: &'a ElementText,
) -> Result<(), AllocError>
    ensures { OnOk result (map (λ v. v.now) vars.new.items ≡ map (λ v. v.now) vars.old.items ++ template_vars element.now) }
{
    push_items(vars, &element.items)?;
    push_group(vars, &element.group)
}

// Adds the variables of a condition.
fn push_cond<'a>(vars: &mut Vec<&'a VarText>, cond: &'a CondText) -> Result<(), AllocError>
    ensures { OnOk result (map (λ v. v.now) vars.new.items ≡ map (λ v. v.now) vars.old.items ++ cond_vars cond.now) }
{
    match cond {
        CondText::FromSource { var, .. } => vars.push(var)?,
        CondText::FromVar { start, var, .. } => {
            vars.push(start)?;
            vars.push(var)?;
        }
        CondText::Compare { left, right, .. } => {
            vars.push(left)?;
            if let OperandText::Var(var) = right {
                vars.push(var)?;
            }
        }
    }
    Ok(())
}

// Adds the variables of conditions.
fn push_conds<'a>(vars: &mut Vec<&'a VarText>, conds: &'a [CondText]) -> Result<(), AllocError>
    ensures { OnOk result (map (λ v. v.now) vars.new.items ≡ map (λ v. v.now) vars.old.items ++ conds_vars conds.now) }
{
    for cond in conds {
        push_cond(vars, cond)?;
    }
    Ok(())
}

// Adds the variable of an order.
fn push_order<'a>(
    vars: &mut Vec<&'a VarText>,
    order: &'a Option<OrderText>,
) -> Result<(), AllocError>
    ensures { OnOk result (map (λ v. v.now) vars.new.items ≡ map (λ v. v.now) vars.old.items ++ order_vars order.now) }
{
    if let Some(order) = order {
        vars.push(&order.var)?;
    }
    Ok(())
}

/// All variables of a rule.
pub fn all_vars(alloc: Global, rule: &RuleText) -> Result<Vec<&VarText>, AllocError>
    ensures { IfOk result (λ vars. map (λ v. v.now) vars.items ≡ vars_of (tree_of rule.now)) }
{
    let mut vars = Vec::new(alloc);
    push_element(&mut vars, &rule.template)?;
    push_conds(&mut vars, &rule.conds)?;
    push_order(&mut vars, &rule.order)?;
    Ok(vars)
}
