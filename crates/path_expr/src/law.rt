// What holds of the grammar itself.
ghost use Rattle.path_expr.specs.Results.{SpellsAtMostOne};

/// No text spells two paths.
pub fn no_text_spells_two_paths()
    ensures { SpellsAtMostOne }
{}
