// What look-ups promise together.
ghost use Rattle.join_memo.specs.Law.{FindsAll};

/// Looking a label up from the first place on, and then from after each place that was found, finds the places of all pairs with that label,
/// in the order in which they were pushed, each once.
pub fn look_ups_find_all()
    ensures { FindsAll }
{}
