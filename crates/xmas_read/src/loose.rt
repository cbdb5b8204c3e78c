// Loose items: an item shows only what is in force where it stands.
ghost use Rattle.std.specs.Prelude.{◌≡◌, ◌<◌, ◌^◌, ◌∷◌, [], IfOk, length};
ghost use Rattle.xmas_text.specs.Elements.{contents_of};
ghost use Rattle.mix_tree.specs.Keys.{stands, in_force};
ghost use Rattle.xmas_read.specs.Value.{own_keys};
ghost use Rattle.xmas_read.specs.Refusals.{first_in, unless, loose_items};

use crate::values::{element_keys, shown_keys, var_value};
use mix_tree::{Key, Label, key_stands, keys_in_force};
use std::alloc::{AllocError, Global};
use xmas_text::{ElementText, ItemText, ShownText};

// The place of an item that shows a key, where the key isn't in force there.
fn loose_shown(
    alloc: Global,
    names: &[Label],
    force: &[Key],
    key: &Key,
    shown: &ShownText,
) -> Result<Option<usize>, AllocError>
    requires { length names.now < 2 ^ 32 }
    ensures { IfOk result (λ at. at ≡ first_in (unless (stands (in_force force.now (own_keys names.now (key.now ∷ []) shown.now.group)) key.now) shown.now.at)) }
{
    let own = shown_keys(alloc, names, key, &shown.group)?;
    let force = keys_in_force(alloc, force, &own)?;
    if key_stands(&force, key) {
        Ok(None)
    } else {
        Ok(Some(shown.at))
    }
}

// The place of the first loose item inside an element, whose own keys are in force there with those around it.
#[cycle(loose)]
fn loose_in_element(
    alloc: Global,
    names: &[Label],
    force: &[Key],
    element: &ElementText,
) -> Result<Option<usize>, AllocError>
    requires { length names.now < 2 ^ 32 }
    ensures { IfOk result (λ at. at ≡ first_in (loose_items names.now (in_force force.now (own_keys names.now [] element.now.group)) element.now.contents)) }
{
    let own = element_keys(alloc, names, &element.group)?;
    let force = keys_in_force(alloc, force, &own)?;
    loose_item(alloc, names, &force, &element.items)
}

// The place of the first loose item among one and those inside it, where given keys are in force.
#[cycle(loose)]
fn loose_at(
    alloc: Global,
    names: &[Label],
    force: &[Key],
    item: &ItemText,
) -> Result<Option<usize>, AllocError>
    requires { length names.now < 2 ^ 32 }
    ensures { IfOk result (λ at. at ≡ first_in (loose_items names.now force.now (contents_of (item.now ∷ [])))) }
{
    match item {
        ItemText::Element(element) => loose_in_element(alloc, names, force, element),
        ItemText::Node(shown) => {
            let key = Key::Node(var_value(names, &shown.var));
            loose_shown(alloc, names, force, &key, shown)
        }
        ItemText::LabelOf(shown) => {
            let key = Key::LabelOf(var_value(names, &shown.var));
            loose_shown(alloc, names, force, &key, shown)
        }
        ItemText::Text(_) => Ok(None),
    }
}

/// The first item among these, or inside one of them, that shows what isn't in force there, its own keys included.
#[cycle(loose)]
pub fn loose_item(
    alloc: Global,
    names: &[Label],
    force: &[Key],
    items: &[ItemText],
) -> Result<Option<usize>, AllocError>
    requires { length names.now < 2 ^ 32 }
    ensures { IfOk result (λ at. at ≡ first_in (loose_items names.now force.now (contents_of items.now))) }
{
    for item in items {
        if let Some(at) = loose_at(alloc, names, force, item)? {
            return Ok(Some(at));
        }
    }
    Ok(None)
}
