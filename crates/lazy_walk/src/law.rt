// What the definitions promise of walks.
ghost use Rattle.plan_core.specs.Plans.{PlanValue};
ghost use Rattle.lazy_walk.specs.Kept.{KeepsWalks, TreesAreThere, TreesStay};
ghost use Rattle.lazy_walk.specs.Walks.{HasDocuments, IdentifiersStay};

use plan_core::{tolled_is_document, valid_plans_are_typed};
use tree_buffer::buffers_are_kept;

/// Whatever calls leave of a walk, each earlier identifier stands for the same node, with the same trees after it.
pub fn identifiers_stay()
    ensures { IdentifiersStay }
{}

/// Over any source documents, a valid plan has a document.
pub fn valid_plans_have_documents()
    ensures { (p : PlanValue) → HasDocuments p }
{
    tolled_is_document();
    valid_plans_are_typed();
}

/// Where sources keep what every call keeps, each walk over them that no call takes stays one over them, with the identifiers that it had.
pub fn walks_are_kept()
    ensures { KeepsWalks }
{
    buffers_are_kept();
}

/// Whatever calls leave of a walk, each earlier identifier stands for the same tree, with the same trees after it.
pub fn trees_stay()
    ensures { TreesStay }
{}

/// Over told sources an identifier stands for the tree at its place of the plan's document, and for the trees after that.
pub fn trees_are_there()
    ensures { TreesAreThere }
{
    tolled_is_document();
}
