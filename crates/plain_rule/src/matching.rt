// The nodes that a path leads to.
ghost use Rattle.std.specs.Prelude.{◌≡◌, ◌++◌, ◌∷◌, [], Bool, cond, IfOk, OnOk};
ghost use Rattle.mix_tree.specs.Forest.{tree, none};
ghost use Rattle.path_expr.specs.Description.{Labels};
ghost use Rattle.path_expr.specs.Matches.{AreMatches};
ghost use Rattle.plain_rule.specs.Documents.{documents_of};
ghost use Rattle.plain_rule.specs.Found.{Tests};
ghost use Rattle.plain_rule.specs.Steps.{AddsFound};

use crate::describing::describes;
use crate::documents::kids_of;
use crate::node::{Node, copy_place};
use mix_tree::{Label, Place, Tree};
use path_expr::Path;
use std::alloc::{AllocError, Global};

// Where trees stand: below a place, under the labels on the way to it.
#[derive(Clone, Copy)]
struct Under<'a> {
    labels: &'a [Label],
    place: &'a Place,
}

// The labels with one more.
fn with_label(alloc: Global, labels: &[Label], label: &Label) -> Result<Vec<Label>, AllocError>
    ensures { IfOk result (λ longer. longer.items ≡ labels.now ++ label.now ∷ []) }
{
    let mut longer = Vec::new(alloc);
    for l in labels {
        longer.push(l.copy(alloc)?)?;
    }
    longer.push(label.copy(alloc)?)?;
    Ok(longer)
}

// The place of a child of the node at a place.
fn child(alloc: Global, place: &Place, at: usize) -> Result<Place, AllocError>
    ensures { IfOk result (λ below. below ≡ place.now ++ at ∷ []) }
{
    let mut steps = Vec::from_slice(alloc, place.steps())?;
    steps.push(at as u64)?;
    Ok(Place::new(steps))
}

// Adds the place, where the path describes the labels.
fn push_if_described(
    alloc: Global,
    path: &Path,
    labels: &[Label],
    place: &Place,
    found: &mut Vec<Place>,
) -> Result<(), AllocError>
    ensures { (test : Labels → Bool) → Tests path.now test → OnOk result (found.new.items ≡ found.old.items ++ cond (test labels.now) (place.now ∷ []) []) }
{
    if describes(path, labels) {
        found.push(copy_place(alloc, place)?)?;
    }
    Ok(())
}

// Adds the places below one, of these trees and those below them, to which the path describes the labels.
fn push_found(
    alloc: Global,
    path: &Path,
    trees: &[Tree],
    under: &Under<'_>,
    found: &mut Vec<Place>,
) -> Result<(), AllocError>
    ensures { (test : Labels → Bool) → Tests path.now test → OnOk result (AddsFound test under.now trees.now found.old.items found.new.items) }
{
    for (at, tree) in trees.iter().enumerate() {
        let labels = with_label(alloc, under.labels, tree.label())?;
        let below = child(alloc, under.place, at)?;
        push_if_described(alloc, path, &labels, &below, found)?;
        let under = Under {
            labels: &labels,
            place: &below,
        };
        push_found(alloc, path, tree.kids(), &under, found)?;
    }
    Ok(())
}

/// The places in the start's source that the path leads to from the start, in document order.
pub fn matches(
    alloc: Global,
    docs: &[Tree],
    path: &Path,
    start: &Node,
) -> Result<Vec<Place>, AllocError>
    ensures { IfOk result (λ places. AreMatches path.now (tree [] (documents_of docs.now start.now.source) none) start.now.place places.items) }
{
    let mut found = Vec::new(alloc);
    let kids = kids_of(docs, start);
    let under = Under {
        labels: &[],
        place: start.place(),
    };
    push_found(alloc, path, kids, &under, &mut found)?;
    Ok(found)
}
