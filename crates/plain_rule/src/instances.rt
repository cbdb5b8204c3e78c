// The instances of a template's items.
ghost use Rattle.std.specs.Prelude.{◌≡◌, IfOk, OnOk};
ghost use Rattle.mix_tree.specs.Forest.{forest_of, none, tree, joined};
ghost use Rattle.xmas_rule.specs.Items.{whole, label_alone, element, done};
ghost use Rattle.xmas_rule.specs.Made.{items_of, item_before};
ghost use Rattle.xmas_rule.specs.Meaning.{shown_first};
ghost use Rattle.plain_rule.specs.Documents.{documents_of};
ghost use Rattle.plain_rule.specs.Steps.{Adds, elements, instances_in};

use crate::binding::{Binding, node_in};
use crate::documents::kids_of;
use crate::grouping::{Part, parts};
use crate::selecting::label_in;
use mix_tree::{Key, Label, Tree, Var, keys_in_force};
use std::alloc::{AllocError, Global};
use xmas_rule::{Item, Template};

/// Source documents, and the keys in force.
#[derive(Clone, Copy)]
pub struct Scope<'a> {
    pub docs: &'a [Tree],
    pub force: &'a [Key],
}

// A tree with another such label.
pub fn labelled(alloc: Global, label: &Label, kids: Vec<Tree>) -> Result<Tree, AllocError>
    ensures { IfOk result (λ made. made ≡ record { label = label.now; kids = forest_of kids.items }) }
{
    Ok(Tree::new(label.copy(alloc)?, kids))
}

/// A copy of a tree.
#[cycle(copying)]
pub fn copy_tree(alloc: Global, tree: &Tree) -> Result<Tree, AllocError>
    ensures { IfOk result (λ copy. copy ≡ tree.now) }
{
    let kids = copy_trees(alloc, tree.kids())?;
    labelled(alloc, tree.label(), kids)
}

/// Copies of trees.
#[cycle(copying)]
pub fn copy_trees(alloc: Global, trees: &[Tree]) -> Result<Vec<Tree>, AllocError>
    ensures { IfOk result (λ copies. copies.items ≡ trees.now) }
{
    let mut copies = Vec::new(alloc);
    for tree in trees {
        copies.push(copy_tree(alloc, tree)?)?;
    }
    Ok(copies)
}

// Adds a tree of a label and children.
fn push_tree(made: &mut Vec<Tree>, label: Label, kids: Vec<Tree>) -> Result<(), AllocError>
    ensures { OnOk result (Adds made.old.items made.new.items (tree label (forest_of kids.items) none)) }
{
    made.push(Tree::new(label, kids))?;
    Ok(())
}

// Adds a tree with another such label.
fn push_labelled(
    alloc: Global,
    made: &mut Vec<Tree>,
    label: &Label,
    kids: Vec<Tree>,
) -> Result<(), AllocError>
    ensures { OnOk result (Adds made.old.items made.new.items (tree label.now (forest_of kids.items) none)) }
{
    push_tree(made, label.copy(alloc)?, kids)
}

// Adds the subtree at the variable's node in the first binding.
fn push_whole(
    alloc: Global,
    docs: &[Tree],
    var: Var,
    bindings: &[Binding],
    made: &mut Vec<Tree>,
) -> Result<(), AllocError>
    ensures { OnOk result (Adds made.old.items made.new.items (shown_first (documents_of docs.now) whole var bindings.now)) }
{
    if let Some((first, _)) = bindings.split_first() {
        let label = label_in(alloc, docs, first, var)?;
        let node = node_in(alloc, first, var)?;
        let kids = copy_trees(alloc, kids_of(docs, &node))?;
        push_tree(made, label, kids)?;
    }
    Ok(())
}

// Adds a leaf with the label of the variable's node in the first binding.
fn push_label(
    alloc: Global,
    docs: &[Tree],
    var: Var,
    bindings: &[Binding],
    made: &mut Vec<Tree>,
) -> Result<(), AllocError>
    ensures { OnOk result (Adds made.old.items made.new.items (shown_first (documents_of docs.now) label_alone var bindings.now)) }
{
    if let Some((first, _)) = bindings.split_first() {
        let label = label_in(alloc, docs, first, var)?;
        push_tree(made, label, Vec::new(alloc))?;
    }
    Ok(())
}

// Adds the subtree at the variable's node for each part.
fn push_wholes(
    alloc: Global,
    docs: &[Tree],
    var: Var,
    found: &[Part],
    made: &mut Vec<Tree>,
) -> Result<(), AllocError>
    ensures { OnOk result (Adds made.old.items made.new.items (joined (shown_first (documents_of docs.now) whole var) found.now)) }
{
    for part in found {
        push_whole(alloc, docs, var, part.bindings(), made)?;
    }
    Ok(())
}

// Adds a leaf with the label of the variable's node for each part.
fn push_labels(
    alloc: Global,
    docs: &[Tree],
    var: Var,
    found: &[Part],
    made: &mut Vec<Tree>,
) -> Result<(), AllocError>
    ensures { OnOk result (Adds made.old.items made.new.items (joined (shown_first (documents_of docs.now) label_alone var) found.now)) }
{
    for part in found {
        push_label(alloc, docs, var, part.bindings(), made)?;
    }
    Ok(())
}

// Adds the element for each part.
#[cycle(making)]
fn push_elements(
    alloc: Global,
    scope: &Scope<'_>,
    template: &Template,
    found: &[Part],
    made: &mut Vec<Tree>,
) -> Result<(), AllocError>
    ensures { OnOk result (Adds made.old.items made.new.items (elements scope.now template.now.label template.now.items found.now)) }
{
    for part in found {
        let mut kids = Vec::new(alloc);
        push_instances(alloc, scope, &template.items, part.bindings(), &mut kids)?;
        push_labelled(alloc, made, &template.label, kids)?;
    }
    Ok(())
}

// Adds the instances of an element.
#[cycle(making)]
fn push_element(
    alloc: Global,
    scope: &Scope<'_>,
    template: &Template,
    bindings: &[Binding],
    made: &mut Vec<Tree>,
) -> Result<(), AllocError>
    ensures { let e = template.now in
        OnOk result (Adds made.old.items made.new.items (instances_in scope.now (element e.label e.items e.keys done) bindings.now)) }
{
    let found = parts(alloc, scope.docs, scope.force, &template.keys, bindings)?;
    let inside = keys_in_force(alloc, scope.force, &template.keys)?;
    let scope = Scope {
        docs: scope.docs,
        force: &inside,
    };
    push_elements(alloc, &scope, template, &found, made)
}

// Adds the instances of an item.
#[cycle(making)]
fn push_item(
    alloc: Global,
    scope: &Scope<'_>,
    item: &Item,
    bindings: &[Binding],
    made: &mut Vec<Tree>,
) -> Result<(), AllocError>
    ensures { OnOk result (Adds made.old.items made.new.items (instances_in scope.now (item_before item.now done) bindings.now)) }
{
    match item {
        Item::Text(label) => push_labelled(alloc, made, label, Vec::new(alloc)),
        Item::Node { var, keys } => {
            let found = parts(alloc, scope.docs, scope.force, keys, bindings)?;
            push_wholes(alloc, scope.docs, *var, &found, made)
        },
        Item::LabelOf { var, keys } => {
            let found = parts(alloc, scope.docs, scope.force, keys, bindings)?;
            push_labels(alloc, scope.docs, *var, &found, made)
        },
        Item::Element(template) => push_element(alloc, scope, template, bindings, made),
    }
}

// Adds the instances of items, one after another.
#[cycle(making)]
pub fn push_instances(
    alloc: Global,
    scope: &Scope<'_>,
    items: &[Item],
    bindings: &[Binding],
    made: &mut Vec<Tree>,
) -> Result<(), AllocError>
    ensures { OnOk result (Adds made.old.items made.new.items (instances_in scope.now (items_of items.now) bindings.now)) }
{
    for item in items {
        push_item(alloc, scope, item, bindings, made)?;
    }
    Ok(())
}
