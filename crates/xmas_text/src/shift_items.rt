// Tokens of the template: tags, items and group labels.
ghost use Rattle.std.specs.Prelude.{◌≡◌, IfOk};
ghost use Rattle.xmas_text.specs.Drafts as drafts;
ghost use Rattle.xmas_text.specs.Shifted as shifted;

use crate::draft::{Built, Draft, OpenElement, Pending};
use crate::element::{ElementText, ItemText};
use crate::var::{GroupText, KeyText, ShownText, VarText};
use mix_tree::Label;
use std::alloc::{AllocError, Global};
use xmas_tokens::{Lexeme, Mark};

// The draft with one more item.
fn push_item(built: Built, item: ItemText) -> Result<Draft, AllocError>
    ensures { IfOk result (λ d. drafts.draft_in d ≡ shifted.with_item (drafts.built_in built) item) }
{
    let Built {
        open,
        mut items,
        conds,
        order,
    } = built;
    items.push(item)?;
    let built = Built {
        open,
        items,
        conds,
        order,
    };
    Ok(Draft {
        built,
        pending: Pending::Items,
    })
}

// The draft after an opening tag.
fn open_element(alloc: Global, built: Built, at: usize, name: Label) -> Result<Draft, AllocError>
    ensures { IfOk result (λ d. drafts.draft_in d ≡ shifted.opened (drafts.built_in built) at name) }
{
    let Built {
        mut open,
        items,
        conds,
        order,
    } = built;
    open.push(OpenElement {
        at,
        name,
        before: items,
    })?;
    let built = Built {
        open,
        items: Vec::new(alloc),
        conds,
        order,
    };
    Ok(Draft {
        built,
        pending: Pending::Items,
    })
}

// The draft after a closing tag.
fn close_element(built: Built, close_at: usize, close_name: Label) -> Result<Draft, AllocError>
    ensures { IfOk result (λ d. drafts.draft_in d ≡ shifted.closed (drafts.built_in built) close_at close_name) }
{
    let Built {
        mut open,
        items,
        conds,
        order,
    } = built;
    let Some(OpenElement { at, name, before }) = open.pop() else {
        let built = Built {
            open,
            items,
            conds,
            order,
        };
        return Ok(Draft {
            built,
            pending: Pending::Items,
        });
    };
    let element = ElementText {
        at,
        name,
        items,
        close_at,
        close_name,
        group: None,
    };
    let built = Built {
        open,
        items: before,
        conds,
        order,
    };
    push_item(built, ItemText::Element(element))
}

// The brace that opens the last item's group label.
fn begin_group(alloc: Global, built: Built, at: usize) -> Draft
    ensures { drafts.draft_in result ≡ shifted.grouped (drafts.built_in built) at }
{
    let Built {
        open,
        mut items,
        conds,
        order,
    } = built;
    let pending = match items.pop() {
        Some(item) => Pending::Keys(
            item,
            GroupText {
                at,
                keys: Vec::new(alloc),
            },
        ),
        None => Pending::Items,
    };
    let built = Built {
        open,
        items,
        conds,
        order,
    };
    Draft { built, pending }
}

/// The draft after a token between items.
pub fn shift_item(
    alloc: Global,
    built: Built,
    at: usize,
    token: Lexeme,
) -> Result<Draft, AllocError>
    ensures { IfOk result (λ d. drafts.draft_in d ≡ shifted.item_shifted (drafts.built_in built) at token) }
{
    let pending = match token {
        Lexeme::OpenTag(name) => return open_element(alloc, built, at, name),
        Lexeme::CloseTag(name) => return close_element(built, at, name),
        Lexeme::Var(name) => {
            let var = VarText { at, name };
            return push_item(
                built,
                ItemText::Node(ShownText {
                    at,
                    var,
                    group: None,
                }),
            );
        }
        Lexeme::Quoted(label) => return push_item(built, ItemText::Text(label)),
        Lexeme::Fixed(Mark::OpenBrace) => return Ok(begin_group(alloc, built, at)),
        Lexeme::Fixed(Mark::LabelWord) => Pending::Labelled(at),
        Lexeme::Fixed(Mark::Where) => Pending::Cond,
        _ => Pending::Items,
    };
    Ok(Draft { built, pending })
}

/// A token after `label` as an item, which stands at a place.
pub fn shift_labelled(
    built: Built,
    start: usize,
    at: usize,
    token: Lexeme,
) -> Result<Draft, AllocError>
    ensures { IfOk result (λ d. drafts.draft_in d ≡ shifted.labelled_shifted (drafts.built_in built) start at token) }
{
    let Lexeme::Var(name) = token else {
        return Ok(Draft {
            built,
            pending: Pending::Labelled(start),
        });
    };
    let var = VarText { at, name };
    push_item(
        built,
        ItemText::LabelOf(ShownText {
            at: start,
            var,
            group: None,
        }),
    )
}

// The item with a group label.
fn with_group(item: ItemText, group: GroupText) -> ItemText
    ensures { result ≡ shifted.item_with item group }
{
    let group = Some(group);
    match item {
        ItemText::Element(element) => {
            let ElementText {
                at,
                name,
                items,
                close_at,
                close_name,
                group: _,
            } = element;
            ItemText::Element(ElementText {
                at,
                name,
                items,
                close_at,
                close_name,
                group,
            })
        }
        ItemText::Node(ShownText { at, var, group: _ }) => ItemText::Node(ShownText {
            at,
            var,
            group,
        }),
        ItemText::LabelOf(ShownText { at, var, group: _ }) => ItemText::LabelOf(ShownText {
            at,
            var,
            group,
        }),
        ItemText::Text(label) => ItemText::Text(label),
    }
}

// The draft with one more key in the group label at hand.
fn push_key(
    built: Built,
    item: ItemText,
    group: GroupText,
    key: KeyText,
) -> Result<Draft, AllocError>
    ensures { IfOk result (λ d. drafts.draft_in d ≡ shifted.with_key (drafts.built_in built) item group key) }
{
    let GroupText { at, mut keys } = group;
    keys.push(key)?;
    Ok(Draft {
        built,
        pending: Pending::Keys(item, GroupText { at, keys }),
    })
}

/// A token inside a group label.
pub fn shift_keys(
    built: Built,
    item: ItemText,
    group: GroupText,
    at: usize,
    token: Lexeme,
) -> Result<Draft, AllocError>
    ensures { IfOk result (λ d. drafts.draft_in d ≡ shifted.keys_shifted (drafts.built_in built) item group at token) }
{
    match token {
        Lexeme::Var(name) => push_key(built, item, group, KeyText::Node(VarText { at, name })),
        Lexeme::Fixed(Mark::LabelWord) => Ok(Draft {
            built,
            pending: Pending::KeyLabel(item, group),
        }),
        Lexeme::Fixed(Mark::CloseBrace) => push_item(built, with_group(item, group)),
        _ => Ok(Draft {
            built,
            pending: Pending::Keys(item, group),
        }),
    }
}

/// A token after `label` inside a group label.
pub fn shift_key_label(
    built: Built,
    item: ItemText,
    group: GroupText,
    at: usize,
    token: Lexeme,
) -> Result<Draft, AllocError>
    ensures { IfOk result (λ d. drafts.draft_in d ≡ shifted.key_label_shifted (drafts.built_in built) item group at token) }
{
    let Lexeme::Var(name) = token else {
        return Ok(Draft {
            built,
            pending: Pending::KeyLabel(item, group),
        });
    };
    push_key(built, item, group, KeyText::LabelOf(VarText { at, name }))
}
