// The rule that a tree stands for.
ghost use Rattle.std.specs.Prelude.{◌≡◌, ◌<◌, ◌^◌, ◌∷◌, [], IfOk, map, length};
ghost use Rattle.xmas_text.specs.Elements.{contents_of};
ghost use Rattle.xmas_rule.specs.Made.{item_before};
ghost use Rattle.xmas_rule.specs.Items.{Items};
ghost use Rattle.xmas_rule.specs.Made.{items_of};
ghost use Rattle.xmas_read.specs.Value.{place_in, key_value, own_keys, items_value, operand_value, order_value};
ghost use Rattle.xmas_read.specs.Refusals.{leaf_keys};
ghost use Rattle.xmas_read.specs.ItemValue.{value_before};

use crate::names::place_in;
use mix_tree::{Key, Label, Operand, Var};
use std::alloc::{AllocError, Global};
use xmas_rule::{Item, OrderBy, Template};
use xmas_text::{
    ElementText, GroupText, ItemText, KeyText, OperandText, OrderText, ShownText, VarText,
};

/// The variable of a name.
pub fn var_value(names: &[Label], var: &VarText) -> Var
    requires { length names.now < 2 ^ 32 }
    ensures { result ≡ place_in names.now var.now.name }
{
    Var::new(place_in(names, &var.name) as u32)
}

// The key that a key of a rule's text stands for.
fn key_value(names: &[Label], key: &KeyText) -> Key
    requires { length names.now < 2 ^ 32 }
    ensures { result ≡ key_value names.now key.now }
{
    match key {
        KeyText::Node(var) => Key::Node(var_value(names, var)),
        KeyText::LabelOf(var) => Key::LabelOf(var_value(names, var)),
    }
}

// The keys that keys of a rule's text stand for, in order.
fn keys_value(alloc: Global, names: &[Label], texts: &[KeyText]) -> Result<Vec<Key>, AllocError>
    requires { length names.now < 2 ^ 32 }
    ensures { IfOk result (λ keys. keys.items ≡ map (key_value names.now) texts.now) }
{
    let mut keys = Vec::new(alloc);
    for text in texts {
        keys.push(key_value(names, text))?;
    }
    Ok(keys)
}

/// The keys of an element: those of its group label, and none without one.
pub fn element_keys(
    alloc: Global,
    names: &[Label],
    group: &Option<GroupText>,
) -> Result<Vec<Key>, AllocError>
    requires { length names.now < 2 ^ 32 }
    ensures { IfOk result (λ keys. keys.items ≡ own_keys names.now [] group.now) }
{
    match group {
        Some(group) => keys_value(alloc, names, &group.keys),
        None => Ok(Vec::new(alloc)),
    }
}

/// The keys of an item that shows a variable: those of its group label, and without one what it shows.
pub fn shown_keys(
    alloc: Global,
    names: &[Label],
    own: &Key,
    group: &Option<GroupText>,
) -> Result<Vec<Key>, AllocError>
    requires { length names.now < 2 ^ 32 }
    ensures { IfOk result (λ keys. keys.items ≡ own_keys names.now (own.now ∷ []) group.now) }
{
    match group {
        Some(group) => keys_value(alloc, names, &group.keys),
        None => Ok(vec![in alloc; *own]?),
    }
}

// The value of an item.
#[cycle(value)]
fn item_value(alloc: Global, names: &[Label], text: &ItemText) -> Result<Item, AllocError>
    requires { length names.now < 2 ^ 32 }
    ensures { IfOk result (λ item. (rest : Items) → item_before item rest ≡ value_before names.now text.now rest) }
{
    match text {
        ItemText::Element(element) => Ok(Item::Element(template_value(alloc, names, element)?)),
        ItemText::Node(shown) => {
            let var = var_value(names, &shown.var);
            let keys = shown_keys(alloc, names, &Key::Node(var), &shown.group)?;
            Ok(Item::Node { var, keys })
        }
        ItemText::LabelOf(shown) => {
            let var = var_value(names, &shown.var);
            let keys = shown_keys(alloc, names, &Key::LabelOf(var), &shown.group)?;
            Ok(Item::LabelOf { var, keys })
        }
        ItemText::Text(label) => Ok(Item::Text(label.copy(alloc)?)),
    }
}

// The values of items, in order.
#[cycle(value)]
fn items_value(alloc: Global, names: &[Label], texts: &[ItemText]) -> Result<Vec<Item>, AllocError>
    requires { length names.now < 2 ^ 32 }
    ensures { IfOk result (λ items. items_of items.items ≡ items_value names.now (contents_of texts.now)) }
{
    let mut items = Vec::new(alloc);
    for text in texts {
        items.push(item_value(alloc, names, text)?)?;
    }
    Ok(items)
}

/// The template of an element.
#[cycle(value)]
pub fn template_value(
    alloc: Global,
    names: &[Label],
    element: &ElementText,
) -> Result<Template, AllocError>
    requires { length names.now < 2 ^ 32 }
    ensures { IfOk result (λ t. t ≡ record { label = element.now.name; items = items_value names.now element.now.contents; keys = own_keys names.now [] element.now.group }) }
{
    let items = items_value(alloc, names, &element.items)?;
    let keys = element_keys(alloc, names, &element.group)?;
    let label = element.name.copy(alloc)?;
    Ok(Template { label, items, keys })
}

/// The value of a rule's order.
pub fn order_of(names: &[Label], order: &Option<OrderText>) -> Option<OrderBy>
    requires { length names.now < 2 ^ 32 }
    ensures { result ≡ order_value names.now order.now }
{
    match order {
        Some(order) => Some(OrderBy {
            var: var_value(names, &order.var),
            desc: order.desc,
        }),
        None => None,
    }
}

/// The value of an operand.
pub fn operand_of(alloc: Global, names: &[Label], text: &OperandText) -> Result<Operand, AllocError>
    requires { length names.now < 2 ^ 32 }
    ensures { IfOk result (λ operand. operand ≡ operand_value names.now text.now) }
{
    match text {
        OperandText::Var(var) => Ok(Operand::Var(var_value(names, var))),
        OperandText::Text(label) => Ok(Operand::Text(label.copy(alloc)?)),
    }
}
