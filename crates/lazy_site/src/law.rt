// What the definitions promise of what is left after nodes.
ghost use Rattle.lazy_site.specs.Levels.{LevelsOpen, RestsTellIndexes};

/// Over sources that tell their documents, what is left after a node of its list, and after each element on the way to it, tells levels that open the plan's
/// document to the node.
pub fn levels_open()
    ensures { LevelsOpen }
{}

/// Where a node stands in the list of a variable, the trees after it tell its index.
pub fn rests_tell_indexes()
    ensures { RestsTellIndexes }
{}
