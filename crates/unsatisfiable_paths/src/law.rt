// What holds of the paths of plans that are unsatisfiable.
ghost use Rattle.unsatisfiable_paths.specs.Law.{UnsatisfiableHaveNoMatch};

use browse_class::events_are_as_known;
use browse_visit::visits_are_as_laid;
use path_auto::visits_are_matches;
use plan_core::{events_are_bindings, valid_plans_are_typed};

/// Over all documents that are laid out as the shapes of a valid plan's sources say, an unsatisfiable path of the plan has no match from the start's
/// node of any binding of its operator's input, and so the operator has no binding. Each of those nodes is of the source that is told, and below it
/// stand trees as below a node of one of the sorts that are told; none of these is that of which nothing is known.
pub fn unsatisfiable_paths_have_no_match()
    ensures { UnsatisfiableHaveNoMatch }
{
    valid_plans_are_typed();
    events_are_as_known();
    visits_are_as_laid();
    visits_are_matches();
    events_are_bindings();
}
