// What the definitions promise.
ghost use Rattle.plan_levels.specs.Entered.{EnteredOnce, LevelsEnterOnce, MembersAreTold, SinglesAreTold};

/// Over any source documents, whatever levels lead to the tree at an index of a list of a valid plan, they go through the pieces of the same numbers,
/// and the tree is made of the same piece over the same binding.
pub fn entered_once()
    ensures { EnteredOnce }
{}

/// Over any source documents, the same levels lead to one tree of a list of a valid plan.
pub fn levels_enter_once()
    ensures { LevelsEnterOnce }
{}

/// Over any source documents, where the evidence of levels with the numbers of a group's members is of the binding to which other such levels lead, both
/// lead to one member.
pub fn members_are_told()
    ensures { MembersAreTold }
{}

/// Over any source documents, levels with the number of a piece that is a single tree lead to it.
pub fn singles_are_told()
    ensures { SinglesAreTold }
{}
