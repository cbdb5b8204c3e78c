// Writing a rule's canonical text.
ghost use Rattle.std.specs.Prelude.{◌≡◌, ◌++◌, ◌∷◌, [], cond, codes, get_or, IfOk, OnOk};
ghost use Rattle.xmas_rule.specs.Made.{items_of, item_before};
ghost use Rattle.xmas_rule.specs.Items.{done};
ghost use Rattle.xmas_rule.specs.RuleMade.{rule_of};
ghost use Rattle.xmas_read.specs.Results.{names_of_sources};
ghost use Rattle.xmas_read.specs.Canonical.{var_text, key_text, more_keys, keys_text, group_text, element_text, items_text, operand_text, cond_text, more_conds, conds_text, order_text, canonical};

use mix_catalog::Catalog;
use mix_tree::{Key, Label, Operand, Var, push_quoted};
use path_expr::push_path;
use std::alloc::{AllocError, Global};
use xmas_rule::{Cond, Item, OrderBy, Rule, Template};

// Writes the name of the variable of a number.
fn push_name(out: &mut Vec<u8>, names: &[Label], number: u32) -> Result<(), AllocError>
    ensures { OnOk result (out.new.items ≡ out.old.items ++ get_or names.now number []) }
{
    if let Some(name) = names.get(number as usize) {
        out.extend_from_slice(name.bytes())?;
    }
    Ok(())
}

// Writes a variable: `$` and its name.
fn push_var(out: &mut Vec<u8>, names: &[Label], var: Var) -> Result<(), AllocError>
    ensures { OnOk result (out.new.items ≡ out.old.items ++ var_text names.now var) }
{
    out.push(b'$')?;
    push_name(out, names, var.number())
}

// Writes a key: a variable, or `label` and a variable.
fn push_key(out: &mut Vec<u8>, names: &[Label], key: &Key) -> Result<(), AllocError>
    ensures { OnOk result (out.new.items ≡ out.old.items ++ key_text names.now key.now) }
{
    match key {
        Key::Node(var) => push_var(out, names, *var),
        Key::LabelOf(var) => {
            out.extend_from_slice(b"label ")?;
            push_var(out, names, *var)
        }
    }
}

// Writes keys after a first one.
fn push_more_keys(out: &mut Vec<u8>, names: &[Label], keys: &[Key]) -> Result<(), AllocError>
    ensures { OnOk result (out.new.items ≡ out.old.items ++ more_keys names.now keys.now) }
{
    for key in keys {
        out.push(b',')?;
        push_key(out, names, key)?;
    }
    Ok(())
}

// Writes keys with commas between them.
fn push_keys(out: &mut Vec<u8>, names: &[Label], keys: &[Key]) -> Result<(), AllocError>
    ensures { OnOk result (out.new.items ≡ out.old.items ++ keys_text names.now keys.now) }
{
    match keys {
        [] => Ok(()),
        [first, others @ ..] => {
            push_key(out, names, first)?;
            push_more_keys(out, names, others)
        }
    }
}

// Writes a group label: keys in braces.
fn push_group(out: &mut Vec<u8>, names: &[Label], keys: &[Key]) -> Result<(), AllocError>
    ensures { OnOk result (out.new.items ≡ out.old.items ++ group_text names.now keys.now) }
{
    out.push(b'{')?;
    push_keys(out, names, keys)?;
    Ok(out.push(b'}')?)
}

// Writes an item that shows a variable, and a blank after it.
fn push_shown(out: &mut Vec<u8>, names: &[Label], key: &Key, keys: &[Key]) -> Result<(), AllocError>
    ensures { OnOk result (out.new.items ≡ out.old.items ++ (key_text names.now key.now ++ (32 ∷ (group_text names.now keys.now ++ (32 ∷ []))))) }
{
    push_key(out, names, key)?;
    out.push(b' ')?;
    push_group(out, names, keys)?;
    Ok(out.push(b' ')?)
}

// Writes an item, and a blank after it.
#[cycle(write)]
fn push_item(out: &mut Vec<u8>, names: &[Label], item: &Item) -> Result<(), AllocError>
    ensures { OnOk result (out.new.items ≡ out.old.items ++ items_text names.now (item_before item.now done)) }
{
    match item {
        Item::Element(element) => {
            push_element(out, names, element)?;
            Ok(out.push(b' ')?)
        }
        Item::Node { var, keys } => push_shown(out, names, &Key::Node(*var), keys),
        Item::LabelOf { var, keys } => push_shown(out, names, &Key::LabelOf(*var), keys),
        Item::Text(label) => {
            push_quoted(out, label)?;
            Ok(out.push(b' ')?)
        }
    }
}

// Writes items, each with a blank after it.
#[cycle(write)]
fn push_items(out: &mut Vec<u8>, names: &[Label], items: &[Item]) -> Result<(), AllocError>
    ensures { OnOk result (out.new.items ≡ out.old.items ++ items_text names.now (items_of items.now)) }
{
    for item in items {
        push_item(out, names, item)?;
    }
    Ok(())
}

// Writes an opening tag with a blank after it.
fn push_opening(out: &mut Vec<u8>, name: &Label) -> Result<(), AllocError>
    ensures { OnOk result (out.new.items ≡ out.old.items ++ (60 ∷ (name.now ++ codes "> "))) }
{
    out.push(b'<')?;
    out.extend_from_slice(name.bytes())?;
    Ok(out.extend_from_slice(b"> ")?)
}

// Writes a closing tag with a blank after it.
fn push_closing(out: &mut Vec<u8>, name: &Label) -> Result<(), AllocError>
    ensures { OnOk result (out.new.items ≡ out.old.items ++ (codes "</" ++ (name.now ++ codes "> "))) }
{
    out.extend_from_slice(b"</")?;
    out.extend_from_slice(name.bytes())?;
    Ok(out.extend_from_slice(b"> ")?)
}

// Writes an element: its opening tag, its items, its closing tag and its group label.
#[cycle(write)]
fn push_element(out: &mut Vec<u8>, names: &[Label], element: &Template) -> Result<(), AllocError>
    ensures { OnOk result (out.new.items ≡ out.old.items ++ element_text names.now element.now.label (items_text names.now element.now.items) element.now.keys) }
{
    push_opening(out, &element.label)?;
    push_items(out, names, &element.items)?;
    push_closing(out, &element.label)?;
    push_group(out, names, &element.keys)
}

// Writes an operand: a variable, or a quoted label.
fn push_operand(out: &mut Vec<u8>, names: &[Label], operand: &Operand) -> Result<(), AllocError>
    ensures { OnOk result (out.new.items ≡ out.old.items ++ operand_text names.now operand.now) }
{
    match operand {
        Operand::Var(var) => push_var(out, names, *var),
        Operand::Text(label) => push_quoted(out, label),
    }
}

// Writes the name of the source of a number.
fn push_source(out: &mut Vec<u8>, catalog: &Catalog, source: u32) -> Result<(), AllocError>
    ensures { OnOk result (out.new.items ≡ out.old.items ++ get_or (names_of_sources catalog.now) source []) }
{
    if source < catalog.len() {
        out.extend_from_slice(catalog.spec(source).name.bytes())?;
    }
    Ok(())
}

// Writes a condition.
fn push_cond(
    out: &mut Vec<u8>,
    catalog: &Catalog,
    names: &[Label],
    cond: &Cond,
) -> Result<(), AllocError>
    ensures { OnOk result (out.new.items ≡ out.old.items ++ cond_text (names_of_sources catalog.now) names.now cond.now) }
{
    match cond {
        Cond::FromSource { source, path, var } => {
            push_source(out, catalog, *source)?;
            out.push(b' ')?;
            push_path(out, path)?;
            out.push(b' ')?;
            push_var(out, names, *var)
        }
        Cond::FromVar { start, path, var } => {
            push_var(out, names, *start)?;
            out.push(b' ')?;
            push_path(out, path)?;
            out.push(b' ')?;
            push_var(out, names, *var)
        }
        Cond::Compare(test) => {
            push_var(out, names, test.left)?;
            out.push(b' ')?;
            out.extend_from_slice(test.op.sign())?;
            out.push(b' ')?;
            push_operand(out, names, &test.right)
        }
    }
}

// Writes conditions after a first one.
fn push_more_conds(
    out: &mut Vec<u8>,
    catalog: &Catalog,
    names: &[Label],
    conds: &[Cond],
) -> Result<(), AllocError>
    ensures { OnOk result (out.new.items ≡ out.old.items ++ more_conds (names_of_sources catalog.now) names.now conds.now) }
{
    for cond in conds {
        out.extend_from_slice(b" AND ")?;
        push_cond(out, catalog, names, cond)?;
    }
    Ok(())
}

// Writes conditions with `AND` between them.
fn push_conds(
    out: &mut Vec<u8>,
    catalog: &Catalog,
    names: &[Label],
    conds: &[Cond],
) -> Result<(), AllocError>
    ensures { OnOk result (out.new.items ≡ out.old.items ++ conds_text (names_of_sources catalog.now) names.now conds.now) }
{
    match conds {
        [] => Ok(()),
        [first, others @ ..] => {
            push_cond(out, catalog, names, first)?;
            push_more_conds(out, catalog, names, others)
        }
    }
}

// Writes a blank and `DESC` after an order's variable, where the order descends.
fn push_desc(out: &mut Vec<u8>, desc: bool) -> Result<(), AllocError>
    ensures { OnOk result (out.new.items ≡ out.old.items ++ cond desc (codes " DESC") []) }
{
    if desc {
        out.extend_from_slice(b" DESC")?;
    }
    Ok(())
}

// Writes a rule's order with a blank before it; nothing where it has none.
fn push_order(out: &mut Vec<u8>, names: &[Label], order: &Option<OrderBy>) -> Result<(), AllocError>
    ensures { OnOk result (out.new.items ≡ out.old.items ++ order_text names.now order.now) }
{
    if let Some(order) = order {
        out.extend_from_slice(b" ORDER BY ")?;
        push_var(out, names, order.var)?;
        push_desc(out, order.desc)?;
    }
    Ok(())
}

/// The canonical text of a rule over the sources of a catalog (docs/FORMATS.md, "Rules"): single blanks, and each group label
/// written out.
pub fn write_rule(alloc: Global, rule: &Rule, catalog: &Catalog) -> Result<Vec<u8>, AllocError>
    ensures { IfOk result (λ text. text.items ≡ canonical (names_of_sources catalog.now) (rule_of rule.now)) }
{
    let mut out = Vec::new(alloc);
    out.extend_from_slice(b"CONSTRUCT ")?;
    push_element(&mut out, &rule.names, &rule.template)?;
    out.extend_from_slice(b" WHERE ")?;
    push_conds(&mut out, catalog, &rule.names, &rule.conds)?;
    push_order(&mut out, &rule.names, &rule.order)?;
    Ok(out)
}
