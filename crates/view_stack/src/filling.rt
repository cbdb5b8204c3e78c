// What answers a fill of a source or of a view.
ghost use Rattle.std.specs.Prelude.{◌≡◌, ◌<◌, ◌≤◌, ◌+◌, ◌-◌, ◌^◌, min, length, IfOk};
ghost use Rattle.lxp_core.specs.Fill.{Answers, IsRefused, IsRefusedAtOnce, source_of};
ghost use Rattle.lxp_core.specs.Plain.{plain};
ghost use Rattle.view_stack.specs.Stacks.{stacking_in, view_of, views_of};
ghost use Rattle.view_stack.specs.Steps.{AreSound, CameFrom, IsKnownPart, IsOneStep, Moved, NeedsNone, given};

use crate::law::views_are_kept;
use crate::layers::{Layers, Served};
use crate::part::Part;
use crate::walking::find;
use lxp_core::{HoleId, OpenTree, SourceFault, Sources};
use mix_tree::Label;
use std::alloc::{AllocError, Global};

// The list of a node that is served as this number, the first of a part: with a hole below it and, where it isn't the root, one after it.
fn list_of(
    alloc: Global,
    label: Label,
    number: usize,
    part: Part,
) -> Result<Vec<OpenTree>, AllocError>
    ensures { IfOk result (λ list. plain list.items ≡ given label number part) }
{
    let below = vec![in alloc; OpenTree::Hole(Part::Below(number).hole())]?;
    let node = OpenTree::Node { label, kids: below };
    match part {
        Part::Whole => Ok(vec![in alloc; node]?),
        Part::Below(_) | Part::After(_) => {
            Ok(vec![in alloc; node, OpenTree::Hole(Part::After(number).hole())]?)
        }
    }
}

// The part of a view that a hole stands for; `None` where the view doesn't know the hole.
fn known_part(served: &[Served], view: usize, hole: HoleId) -> Option<Part>
    ensures { IsKnownPart served.now view hole result }
{
    let part = Part::of_hole(hole)?;
    match part {
        Part::Whole => Some(part),
        Part::Below(node) | Part::After(node) => match served.get(node) {
            Some(e) if e.view == view => Some(part),
            _ => None,
        },
    }
}

/// The list of a hole of a view. `Failed`: a source that the view names failed. `UnknownHole`: the view doesn't know the hole.
pub(crate) fn fill_view<S: Sources>(
    alloc: Global,
    layers: &mut Layers<S>,
    view: usize,
    hole: HoleId,
) -> Result<Vec<OpenTree>, SourceFault>
    requires view { view < length layers.old.views.items }
    requires sound { AreSound S.view layers.old }
    ensures moved { Moved S.view S.came_from layers.old layers.new }
    ensures unasked { NeedsNone layers.old.views.items view hole → layers.new.base ≡ layers.old.base }
    ensures step { IfOk result (λ list. IsOneStep hole (plain list.items)) }
    ensures answers { let before = source_of (views_of (stacking_in S.view layers.old)) view in
        let after = source_of (views_of (stacking_in S.view layers.new)) view in
        IfOk result (λ list. Answers before after hole (plain list.items)) }
    ensures refused { let before = source_of (views_of (stacking_in S.view layers.old)) view in
        let after = source_of (views_of (stacking_in S.view layers.new)) view in
        IsRefusedAtOnce _ before after hole result }
{
    views_are_kept();
    let Some(part) = known_part(&layers.served, view, hole) else {
        return Err(SourceFault::UnknownHole);
    };
    let Some(walk) = &mut layers.views[view] else {
        return Ok(Vec::new(alloc));
    };
    let Some(found) = find(alloc, &mut layers.base, walk, &layers.served, part)? else {
        return Ok(Vec::new(alloc));
    };
    let list = list_of(alloc, found.label, layers.served.len(), part)?;
    layers.served.push(Served {
        view,
        node: found.node,
    })?;
    Ok(list)
}

// The list of a hole of a source below.
fn fill_base<S: Sources>(
    alloc: Global,
    layers: &mut Layers<S>,
    s: u32,
    hole: HoleId,
) -> Result<Vec<OpenTree>, SourceFault>
    requires source { s < (S.view layers.old.base).count }
    requires sound { AreSound S.view layers.old }
    ensures moved { Moved S.view S.came_from layers.old layers.new }
    ensures answers { let before = source_of (S.view layers.old.base) s in let after = source_of (S.view layers.new.base) s in
        IfOk result (λ list. Answers before after hole (plain list.items)) }
    ensures refused { IsRefused _ (source_of (S.view layers.old.base) s) (source_of (S.view layers.new.base) s) hole result }
{
    views_are_kept();
    layers.base.fill(alloc, s, hole)
}

/// The list of a hole of a source, below or a view. The fill is counted.
pub(crate) fn fill<S: Sources>(
    alloc: Global,
    layers: &mut Layers<S>,
    s: u32,
    hole: HoleId,
) -> Result<Vec<OpenTree>, SourceFault>
    requires source { s < (view_of (stacking_in S.view layers.old)).count }
    requires sound { AreSound S.view layers.old }
    ensures sound { AreSound S.view layers.new }
    ensures came { CameFrom S.view S.came_from layers.old layers.new }
    ensures unasked { let count = (S.view layers.old.base).count in
        count ≤ s → NeedsNone layers.old.views.items (s - count) hole → layers.new.base ≡ layers.old.base }
    ensures step { (S.view layers.old.base).count ≤ s → IfOk result (λ list. IsOneStep hole (plain list.items)) }
    ensures answers { let before = source_of (view_of (stacking_in S.view layers.old)) s in
        let after = source_of (view_of (stacking_in S.view layers.new)) s in
        IfOk result (λ list. Answers before after hole (plain list.items)) }
    ensures refused { let before = source_of (view_of (stacking_in S.view layers.old)) s in
        let after = source_of (view_of (stacking_in S.view layers.new)) s in
        IsRefused _ before after hole result }
    ensures fills { layers.new.fills ≡ min (layers.old.fills + 1) (2 ^ 64 - 1) }
{
    views_are_kept();
    let asked = layers.fills;
    let count = layers.base.count();
    let answer = if s < count {
        fill_base(alloc, layers, s, hole)
    } else {
        fill_view(alloc, layers, (s - count) as usize, hole)
    };
    layers.fills = asked.saturating_add(1);
    answer
}
