// What the definitions promise.
ghost use Rattle.xmas_rule.specs.Law.{TuplesAreBindings};
ghost use Rattle.xmas_rule.specs.Meaning.{HasOneFinished};

/// Over the same documents, no rule has two finished documents.
pub fn one_finished_document()
    ensures { HasOneFinished }
{}

/// Over any source documents, the tuples of an accepted rule's binding conditions that pass its comparisons, in its order,
/// are the bindings of its body.
pub fn tuples_are_bindings()
    ensures { TuplesAreBindings }
{}
