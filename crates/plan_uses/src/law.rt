// What holds of the plans of views.
ghost use Rattle.plan_uses.specs.Law.{ViewsUseHeld};

/// Each operator of the plan of an accepted rule uses of its inputs no more than they hold, and so does each of its rewritten plan.
pub fn plans_of_views_use_what_is_held()
    ensures { ViewsUseHeld }
{}
