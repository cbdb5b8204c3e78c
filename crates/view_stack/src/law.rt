// What the definitions promise of stacks.
ghost use Rattle.view_stack.specs.Over.{AsksBelow, ViewsAreDocuments};
ghost use Rattle.view_stack.specs.Steps.{KeepsViews};

use lazy_walk::{identifiers_stay, trees_stay, walks_are_kept};
use lxp_core::Sources;

/// Walks that no call takes stay, and whatever calls leave of one, its earlier identifiers stay and stand for the same trees.
pub(crate) fn views_are_kept()
    ensures { KeepsViews }
{
    walks_are_kept();
    identifiers_stay();
    trees_stay();
}

/// The document of each view is that of its plan over the sources below, and it is told where these are.
pub fn views_are_documents()
    ensures { ViewsAreDocuments }
{}

/// Where the sources that views name are told and forward, fills of a new stack ask at most so many below for each as the dearest step of a
/// view costs.
pub fn stacks_ask_below<S: Sources>()
    ensures { AsksBelow S.view S.came_from }
{}
