// The first node of a part of a view.
ghost use Rattle.std.specs.Prelude.{◌≡◌, IfOk, IsErrOf};
ghost use Rattle.lazy_plan.specs.Bench.{ops_of};
ghost use Rattle.lazy_steps.specs.Steps.{HasCause};
ghost use Rattle.lazy_walk.specs.Walks.{state_of, IsWalkOf};
ghost use Rattle.view_stack.specs.Steps.{IsPartOf, Stepped, SomeFailed, GivesNode, GivesFound};

use crate::layers::{Found, Served};
use crate::part::Part;
use lazy_plan::benches_keep_on;
use lazy_walk::{Walk, WalkFault, WalkedNode, trees_are_there, valid_plans_have_documents};
use lxp_core::{SourceFault, Sources};
use std::alloc::Global;

// The first node of a part; `None` where it has none. `Failed`: this source failed.
fn first_node<S: Sources>(
    alloc: Global,
    base: &mut S,
    view: &mut Walk,
    served: &[Served],
    part: Part,
) -> Result<Option<WalkedNode>, WalkFault>
    requires walk { IsWalkOf (S.view base.old) view.old }
    requires part { IsPartOf (state_of (S.view base.old) view.old) served.now part }
    ensures stepped { Stepped S.view S.came_from base.old view.old base.new view.new }
    ensures cause { HasCause (ops_of (state_of (S.view base.old) view.old)) (S.view base.old) (S.view base.new) result }
    ensures whole { part ≡ Part.Whole → base.new ≡ base.old }
    ensures node { IfOk result (GivesNode (state_of (S.view base.old) view.old) (state_of (S.view base.new) view.new) served.now part) }
{
    benches_keep_on();
    trees_are_there();
    valid_plans_have_documents();
    match part {
        Part::Whole => Ok(Some(view.root())),
        Part::Below(node) => view.down(alloc, base, &served[node].node),
        Part::After(node) => view.right(alloc, base, &served[node].node),
    }
}

/// The first node of a part of a view, and its label; `None` where it has none. `Failed`: a source that the view names failed.
pub(crate) fn find<S: Sources>(
    alloc: Global,
    base: &mut S,
    view: &mut Walk,
    served: &[Served],
    part: Part,
) -> Result<Option<Found>, SourceFault>
    requires walk { IsWalkOf (S.view base.old) view.old }
    requires part { IsPartOf (state_of (S.view base.old) view.old) served.now part }
    ensures stepped { Stepped S.view S.came_from base.old view.old base.new view.new }
    ensures whole { part ≡ Part.Whole → base.new ≡ base.old }
    ensures found { IfOk result (GivesFound (state_of (S.view base.old) view.old) (state_of (S.view base.new) view.new) served.now part) }
    ensures failed { IsErrOf result SourceFault.Failed
        → SomeFailed (ops_of (state_of (S.view base.old) view.old)) (S.view base.old) (S.view base.new) }
    ensures known { IsErrOf result SourceFault.UnknownHole → ⊥ }
{
    trees_are_there();
    valid_plans_have_documents();
    match first_node(alloc, base, view, served, part) {
        Ok(None) => Ok(None),
        Ok(Some(node)) => {
            let label = view.fetch(&node).copy(alloc)?;
            Ok(Some(Found { label, node }))
        }
        Err(WalkFault::Failed(_)) => Err(SourceFault::Failed),
        Err(WalkFault::OutOfMemory) => Err(SourceFault::OutOfMemory),
    }
}
