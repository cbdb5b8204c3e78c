// What is promised of the numbers of lists.
ghost use Rattle.list_costs.specs.Constant.{ClassIsOfLists};
ghost use Rattle.list_costs.specs.Law.{ListsCostAsTold};

use browse_class::events_are_as_known;
use plan_core::valid_plans_are_typed;

/// Over all documents that are laid out as the shapes of a valid plan's sources say, each binding over which an operator of the plan makes an element has a
/// list for it, in which steps cost at most what `list_words` tells of that list.
pub fn lists_cost_as_told()
    ensures { ListsCostAsTold }
{
    valid_plans_are_typed();
    events_are_as_known();
}

/// The number of a bounded class is the greatest of 1 and the numbers that are told of the lists of new elements, all of which are known; and a class is
/// browsable only where a number of such a list isn't known.
pub fn class_is_of_lists()
    ensures { ClassIsOfLists }
{}
