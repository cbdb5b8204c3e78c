// What holds of the grammar itself.
ghost use Rattle.xmas_text.specs.Results.{SpellsAtMostOne};

/// No text spells two rules.
pub fn no_text_spells_two_rules()
    ensures { SpellsAtMostOne }
{}
