// Groups of bindings that are the same by keys.
ghost use Rattle.std.specs.Prelude.{◌≡◌, ◌++◌, ◌∷◌, [], cond, map, IfOk, OnOk};
ghost use Rattle.std.specs.List.{filter};
ghost use Rattle.mix_base.specs.Groups.{firsts as firsts_by, groups as groups_by};
ghost use Rattle.mix_tree.specs.Keys.{same_key};
ghost use Rattle.mix_tree.specs.declared.var.Key.TheVariants.{LabelOf as label_key};
ghost use Rattle.mix_tree.specs.Nodes.{same_node as is_same_node};
ghost use Rattle.xmas_rule.specs.Bindings.{node_of};
ghost use Rattle.xmas_rule.specs.Meaning.{parts as parts_of};
ghost use Rattle.plain_rule.specs.Documents.{documents_of};
ghost use Rattle.plain_rule.specs.Steps.{is_alike, is_seen};

use crate::binding::{Binding, copy_binding, node_in};
use crate::node::Node;
use crate::selecting::label_in;
use mix_tree::{Key, Tree, Var, item_collects};
use std::alloc::{AllocError, Global};
use std::marker::Model;

// Some bindings of a list: a group, or all.
#[derive(Drop)]
pub struct Part {
    bindings: Vec<Binding>,
}

impl Model for Part {
    ghost use Rattle.std.specs.Prelude.{List};
    ghost use Rattle.xmas_rule.specs.Bindings.{Binding};

    ghost Value = { List Binding };

    ghost view = { λ p. p.bindings.items };
}

impl Part {
    // The part of these bindings.
    fn new(bindings: Vec<Binding>) -> Part
        ensures { result ≡ bindings.items }
    {
        Part { bindings }
    }

    // The bindings of the part, in order.
    pub fn bindings(&self) -> &[Binding]
        ensures { result.now ≡ self.now }
    {
        &self.bindings
    }
}

// What bindings are compared by: keys, over source documents.
#[derive(Clone, Copy)]
struct By<'a> {
    docs: &'a [Tree],
    keys: &'a [Key],
}

/// Whether two nodes are one node of one source.
pub fn same_node(a: &Node, b: &Node) -> bool
    ensures { result ≡ is_same_node a.now b.now }
{
    a.source() == b.source() && a.place().steps() == b.place().steps()
}

// Whether a variable has the same node in two bindings.
fn same_by_node(alloc: Global, var: Var, a: &Binding, b: &Binding) -> Result<bool, AllocError>
    ensures { IfOk result (λ alike. alike ≡ is_same_node (node_of a.now var) (node_of b.now var)) }
{
    let left = node_in(alloc, a, var)?;
    let right = node_in(alloc, b, var)?;
    Ok(same_node(&left, &right))
}

// Whether a variable's nodes in two bindings have the same label.
fn same_by_label(
    alloc: Global,
    docs: &[Tree],
    var: Var,
    a: &Binding,
    b: &Binding,
) -> Result<bool, AllocError>
    ensures { IfOk result (λ alike. alike ≡ same_key (documents_of docs.now) (label_key var) (node_of a.now) (node_of b.now)) }
{
    let left = label_in(alloc, docs, a, var)?;
    let right = label_in(alloc, docs, b, var)?;
    Ok(left == right)
}

// Whether two bindings are the same by a key.
fn same_by_key(
    alloc: Global,
    docs: &[Tree],
    key: &Key,
    a: &Binding,
    b: &Binding,
) -> Result<bool, AllocError>
    ensures { IfOk result (λ alike. alike ≡ same_key (documents_of docs.now) key.now (node_of a.now) (node_of b.now)) }
{
    match key {
        Key::Node(var) => same_by_node(alloc, *var, a, b),
        Key::LabelOf(var) => same_by_label(alloc, docs, *var, a, b),
    }
}

// Whether two bindings are the same by all keys.
fn same_by_keys(alloc: Global, by: &By<'_>, a: &Binding, b: &Binding) -> Result<bool, AllocError>
    ensures { IfOk result (λ alike. alike ≡ is_alike by.now a.now b.now) }
{
    for key in by.keys {
        if !same_by_key(alloc, by.docs, key, a, b)? {
            return Ok(false);
        }
    }
    Ok(true)
}

// Adds the binding, where it is the same as the first.
fn push_if_alike(
    alloc: Global,
    by: &By<'_>,
    first: &Binding,
    binding: &Binding,
    group: &mut Vec<Binding>,
) -> Result<(), AllocError>
    ensures { OnOk result (group.new.items ≡ group.old.items ++ cond (is_alike by.now first.now binding.now) (binding.now ∷ []) []) }
{
    if same_by_keys(alloc, by, first, binding)? {
        group.push(copy_binding(alloc, binding)?)?;
    }
    Ok(())
}

// The bindings that are the same as the first.
fn group_of(
    alloc: Global,
    by: &By<'_>,
    first: &Binding,
    bindings: &[Binding],
) -> Result<Part, AllocError>
    ensures { IfOk result (λ group. group ≡ filter (is_alike by.now first.now) bindings.now) }
{
    let mut group = Vec::new(alloc);
    for binding in bindings {
        push_if_alike(alloc, by, first, binding, &mut group)?;
    }
    Ok(Part::new(group))
}

// Whether one of those seen is the same as the binding.
fn was_seen(
    alloc: Global,
    by: &By<'_>,
    seen: &[Binding],
    binding: &Binding,
) -> Result<bool, AllocError>
    ensures { IfOk result (λ known. known ≡ is_seen by.now seen.now binding.now) }
{
    for other in seen {
        if same_by_keys(alloc, by, other, binding)? {
            return Ok(true);
        }
    }
    Ok(false)
}

// Adds the binding, where none of those seen is the same.
fn push_if_new(
    alloc: Global,
    by: &By<'_>,
    binding: &Binding,
    seen: &mut Vec<Binding>,
) -> Result<(), AllocError>
    ensures { OnOk result (seen.new.items ≡ seen.old.items ++ cond (is_seen by.now seen.old.items binding.now) [] (binding.now ∷ [])) }
{
    if !was_seen(alloc, by, seen, binding)? {
        seen.push(copy_binding(alloc, binding)?)?;
    }
    Ok(())
}

// The first binding of each group.
fn firsts(alloc: Global, by: &By<'_>, bindings: &[Binding]) -> Result<Vec<Binding>, AllocError>
    ensures { IfOk result (λ found. found.items ≡ firsts_by (is_alike by.now) bindings.now) }
{
    let mut seen = Vec::new(alloc);
    for binding in bindings {
        push_if_new(alloc, by, binding, &mut seen)?;
    }
    Ok(seen)
}

// The groups of these first bindings.
fn groups_of(
    alloc: Global,
    by: &By<'_>,
    first: &[Binding],
    bindings: &[Binding],
) -> Result<Vec<Part>, AllocError>
    ensures { IfOk result (λ found. found.items ≡ map (λ b. filter (is_alike by.now b) bindings.now) first.now) }
{
    let mut found = Vec::new(alloc);
    for binding in first {
        found.push(group_of(alloc, by, binding, bindings)?)?;
    }
    Ok(found)
}

// The groups by keys, in the order of their first bindings.
fn groups(alloc: Global, by: &By<'_>, bindings: &[Binding]) -> Result<Vec<Part>, AllocError>
    ensures { IfOk result (λ found. found.items ≡ groups_by (is_alike by.now) bindings.now) }
{
    let first = firsts(alloc, by, bindings)?;
    groups_of(alloc, by, &first, bindings)
}

// All bindings as one part.
fn whole(alloc: Global, bindings: &[Binding]) -> Result<Part, AllocError>
    ensures { IfOk result (λ part. part ≡ bindings.now) }
{
    let mut copies = Vec::new(alloc);
    for binding in bindings {
        copies.push(copy_binding(alloc, binding)?)?;
    }
    Ok(Part::new(copies))
}

// What an item of these keys has one instance of: each group where it collects, else all bindings.
pub fn parts(
    alloc: Global,
    docs: &[Tree],
    force: &[Key],
    own: &[Key],
    bindings: &[Binding],
) -> Result<Vec<Part>, AllocError>
    ensures { IfOk result (λ found. found.items ≡ parts_of (documents_of docs.now) force.now own.now bindings.now) }
{
    if item_collects(force, own) {
        return groups(alloc, &By { docs, keys: own }, bindings);
    }
    let mut one = Vec::new(alloc);
    one.push(whole(alloc, bindings)?)?;
    Ok(one)
}
