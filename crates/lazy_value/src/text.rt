// Texts of identifiers as labels, for what says something that a text can spell.
ghost use Rattle.std.specs.Prelude.{◌≡◌, IfOk};
ghost use Rattle.std.specs.List.{list_all};
ghost use Rattle.node_text.specs.Grammar.{Spells};
ghost use Rattle.node_text.specs.Node.{IsFormed};
ghost use Rattle.lazy_site.specs.Levels.{is_below_top};
ghost use Rattle.lazy_walk.specs.Stages.{IsStage, part_of};
ghost use Rattle.lazy_value.specs.Forms.{Decides, SpellsRoot};

use crate::copying::copy_part;
use lazy_walk::Stage;
use mix_tree::{Label, Place};
use node_text::{Level, NodeData, write_node};
use std::alloc::{AllocError, Global};

/// Whether no place is empty.
fn are_places(places: &[Place]) -> bool
    ensures { result ≡ list_all is_below_top places.now }
{
    for place in places {
        if place.steps().is_empty() {
            return false;
        }
    }
    true
}

/// Whether no place of some levels is empty.
fn have_places(levels: &[Level]) -> bool
    ensures { result ≡ list_all (λ l. list_all is_below_top l.tuple) levels.now }
{
    for level in levels {
        if !are_places(&level.tuple) {
            return false;
        }
    }
    true
}

/// Whether a text can say this: without levels there is no place below, and no place of a level is empty.
pub(crate) fn is_formed(node: &NodeData) -> bool
    ensures { Decides (IsFormed node.now) result }
{
    if node.levels.is_empty() {
        return node.inside.steps().is_empty();
    }
    have_places(&node.levels)
}

/// The text that says this.
pub(crate) fn text_of(alloc: Global, node: &NodeData) -> Result<Label, AllocError>
    requires { IsFormed node.now }
    ensures { IfOk result (λ text. Spells text node.now) }
{
    let bytes = write_node(alloc, node)?;
    Label::of_text(alloc, &bytes)
}

/// The text that says a part of what another says.
pub(crate) fn part_text(alloc: Global, node: &NodeData, stage: Stage) -> Result<Label, AllocError>
    requires formed { IsFormed node.now }
    requires stage { IsStage node.now stage }
    ensures { IfOk result (λ text. Spells text (part_of node.now stage)) }
{
    let part = copy_part(alloc, node, stage)?;
    text_of(alloc, &part)
}

/// The text of the root.
pub(crate) fn root_text(alloc: Global) -> Result<Label, AllocError>
    ensures { IfOk result (λ text. SpellsRoot text) }
{
    let levels = Vec::new(alloc);
    let inside = Place::new(Vec::new(alloc));
    text_of(alloc, &NodeData { levels, inside })
}
