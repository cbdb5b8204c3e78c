// What the definitions promise of classes.
ghost use Rattle.browse_class.specs.Classes.{KnownOfEvents, BoundedTolls};

use plan_core::valid_plans_are_typed;

/// In a valid plan over documents laid out as its sources are, the events of each operator are as its profile says, the trees below the nodes of
/// bindings are laid out as is known, no two bindings agree by its distinct keys, and the first bindings by a part of its front are as its
/// levels say.
pub fn events_are_as_known()
    ensures { KnownOfEvents }
{
    valid_plans_are_typed();
}

/// Where the class of a valid plan is bounded, each toll of a step down or right, at every place of the plan's document and over all documents
/// that are laid out so, is at most the constant.
pub fn tolls_are_bounded()
    ensures { BoundedTolls }
{
    valid_plans_are_typed();
}
