// What stands at a node of the source documents.
ghost use Rattle.std.specs.Prelude.{◌≡◌, IfOk, []};
ghost use Rattle.mix_tree.specs.Forest.{forest_of, tree, none, first_kids, from};
ghost use Rattle.mix_tree.specs.Nodes.{label_of_first, label_at, kids_at};
ghost use Rattle.mix_tree.specs.Place.{trees_at};
ghost use Rattle.plain_rule.specs.Documents.{documents_of};

use crate::node::Node;
use mix_tree::{Label, Tree};
use std::alloc::{AllocError, Global};

// The children of a source's document node: its root alone.
fn document<'a>(docs: &'a [Tree], source: u32) -> &'a [Tree]
    ensures { forest_of result.now ≡ documents_of docs.now source }
{
    let at = source as usize;
    if at < docs.len() {
        &docs[at..at + 1]
    } else {
        &[]
    }
}

// The children at a place below a node with these children.
fn kids_below<'a>(kids: &'a [Tree], place: &[u64]) -> &'a [Tree]
    ensures { forest_of result.now ≡ first_kids (trees_at (tree [] (forest_of kids.now) none) place.now) }
{
    let mut found = kids;
    for step in place {
        match found.get(*step as usize) {
            Some(tree) => found = tree.kids(),
            None => return &[],
        }
    }
    found
}

/// The children of a node. Source number n is tree n of `docs`; a source without a tree has an empty document.
pub fn kids_of<'a>(docs: &'a [Tree], node: &Node) -> &'a [Tree]
    ensures { forest_of result.now ≡ kids_at (documents_of docs.now) node.now }
{
    kids_below(document(docs, node.source()), node.place().steps())
}

// The label of a child; the empty one where there are not so many.
fn label_of_kid(alloc: Global, kids: &[Tree], at: u64) -> Result<Label, AllocError>
    ensures { IfOk result (λ label. label ≡ label_of_first (from at (forest_of kids.now))) }
{
    match kids.get(at as usize) {
        Some(tree) => tree.label().copy(alloc),
        None => Label::of_text(alloc, b""),
    }
}

/// The label of a node; the empty one where nothing stands there.
pub fn label_of(alloc: Global, docs: &[Tree], node: &Node) -> Result<Label, AllocError>
    ensures { IfOk result (λ label. label ≡ label_at (documents_of docs.now) node.now) }
{
    match node.place().steps().split_last() {
        Some((last, above)) => {
            let kids = kids_below(document(docs, node.source()), above);
            label_of_kid(alloc, kids, *last)
        },
        None => Label::of_text(alloc, b""),
    }
}
