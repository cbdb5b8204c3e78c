// Rules as text: the laws of their spelling, and the tree of a text, worked out by hand.
use crate::labels::is_label;
use crate::made::{Parts, made};
use std::alloc::Global;
use xmas_read::canonical_text_is_read_again;
use xmas_text::{
    Comparison, CondText, ElementText, GroupText, ItemText, KeyText, OperandText, OrderText,
    PathLimit, TextFault, VarText, no_text_spells_two_rules, parse_rule,
};

#[test]
fn each_text_spells_one_rule(_rt: HostRuntime) {
    no_text_spells_two_rules();
    canonical_text_is_read_again();
}

// Whether a variable is this one.
fn is_var(var: &VarText, at: usize, name: &str) -> bool {
    var.at == at && is_label(&var.name, name)
}

// Whether a key is that variable, or its label.
fn is_key(key: &KeyText, at: usize, name: &str, of_label: bool) -> bool {
    match key {
        KeyText::Node(var) => !of_label && is_var(var, at, name),
        KeyText::LabelOf(var) => of_label && is_var(var, at, name),
    }
}

// Whether an item shows this variable, with two keys in its group label.
fn is_first_item(item: &ItemText) -> bool {
    let ItemText::Node(shown) = item else {
        return false;
    };
    let Some(GroupText { at: 17, keys }) = &shown.group else {
        return false;
    };
    let [first, second] = keys.as_slice() else {
        return false;
    };
    shown.at == 14
        && is_var(&shown.var, 14, "X")
        && is_key(first, 18, "X", false)
        && is_key(second, 28, "Y", true)
}

// Whether an item shows this variable's label, with no keys in its group label.
fn is_second_item(item: &ItemText) -> bool {
    let ItemText::LabelOf(shown) = item else {
        return false;
    };
    let Some(group) = &shown.group else {
        return false;
    };
    (shown.at, group.at, group.keys.len()) == (32, 40, 0) && is_var(&shown.var, 38, "Z")
}

// Whether an item is this element.
fn is_last_item(item: &ItemText) -> bool {
    let ItemText::Element(element) = item else {
        return false;
    };
    (element.at, element.close_at, element.items.len()) == (48, 52, 0)
        && is_label(&element.name, "b")
        && is_label(&element.close_name, "c")
        && element.group.is_some()
}

// Whether a template has these tags and four items.
fn is_template(template: &ElementText) -> bool {
    let [first, second, ItemText::Text(third), last] = template.items.as_slice() else {
        return false;
    };
    (template.at, template.close_at) == (10, 62)
        && is_label(&template.name, "a")
        && is_label(&template.close_name, "d")
        && is_first_item(first)
        && is_second_item(second)
        && is_label(third, "\n")
        && is_last_item(last)
}

// Whether a condition leads from a source to a variable.
fn is_first_cond(cond: &CondText) -> bool {
    let CondText::FromSource {
        at: 73,
        source,
        path: Ok(_),
        var,
    } = cond
    else {
        return false;
    };
    is_label(source, "s") && is_var(var, 77, "X")
}

// Whether a condition leads from a variable to another one.
fn is_second_cond(cond: &CondText) -> bool {
    let CondText::FromVar {
        start,
        path: Ok(_),
        var,
    } = cond
    else {
        return false;
    };
    is_var(start, 84, "X") && is_var(var, 91, "Y")
}

// Whether a condition compares a variable with a text.
fn is_third_cond(cond: &CondText) -> bool {
    let CondText::Compare {
        left,
        op: Comparison::Le,
        right: OperandText::Text(label),
    } = cond
    else {
        return false;
    };
    is_var(left, 98, "Y") && is_label(label, "q")
}

// Whether there are these three conditions.
fn are_conds(conds: &[CondText]) -> bool {
    let [first, second, third] = conds else {
        return false;
    };
    is_first_cond(first) && is_second_cond(second) && is_third_cond(third)
}

// Whether a rule is ordered so.
fn is_ordered(order: &Option<OrderText>) -> bool {
    let Some(order) = order else {
        return false;
    };
    order.desc && is_var(&order.var, 115, "X")
}

// Whether all parts of a text have their places.
fn has_its_parts(alloc: Global, text: &[u8]) -> Result<bool, TextFault> {
    let rule = parse_rule(alloc, text)?;
    Ok(is_template(&rule.template) && are_conds(&rule.conds) && is_ordered(&rule.order))
}

// A rule with all kinds of parts.
const ALL_PARTS: &[u8] =
    b"CONSTRUCT <a> $X {$X, label $Y} label $Z{} \"\\n\" <b> </c> {$X} </d> WHERE s x $X AND $X a.b $Y AND $Y<=\"q\" ORDER BY $X DESC";

#[test]
fn each_part_has_its_place(rt: HostRuntime) {
    assert!(rt; has_its_parts(rt.alloc(), ALL_PARTS) == Ok(true));
}

// Whether there is one condition, whose path has too many positions.
fn pass_positions(conds: &[CondText]) -> bool {
    matches!(
        conds,
        [CondText::FromSource {
            path: Err(PathLimit::Positions),
            ..
        }]
    )
}

// Whether the one condition of a text has a path with too many positions.
fn passes_positions(alloc: Global, text: &[u8]) -> Result<bool, TextFault> {
    Ok(pass_positions(&parse_rule(alloc, text)?.conds))
}

// Whether a rule with so many more positions passes the limit of a path.
fn passes_limit(alloc: Global, more: usize) -> Result<bool, TextFault> {
    let parts: Parts = [b"CONSTRUCT <a></a> WHERE s _", b"._", b" $X", b"", b""];
    passes_positions(alloc, &made(alloc, &parts, more)?)
}

#[test]
fn a_path_may_pass_its_limits(rt: HostRuntime) {
    assert!(rt; passes_limit(rt.alloc(), 120) == Ok(true));
}
