// What holds of the grammar itself.
ghost use Rattle.bracket_text.specs.Grammar.{SpellsAtMostOne};

/// No text spells two trees.
pub fn no_text_spells_two()
    ensures { SpellsAtMostOne }
{}
