// What holds of the grammar itself.
ghost use Rattle.plan_read.specs.Checks.{WholeIsValid};
ghost use Rattle.plan_read.specs.Scopes.{FitIsDecided};
ghost use Rattle.plan_read.specs.Writable.{WrittenPlansAreRead};
ghost use Rattle.plan_read.specs.Grammar.{WrittenByParts, WordsAreSpelled, LinesAreSpelled, SpelledLinesAreRead};

/// The canonical text of an operator is that of the parts by which its line is read.
pub fn operators_are_written_by_parts()
    ensures { WrittenByParts }
{}

/// What a word is read as is what it spells.
pub fn words_are_spelled()
    ensures { WordsAreSpelled }
{}

/// What a line is read as, over any names and sources, is what it spells.
pub fn lines_are_spelled()
    ensures { LinesAreSpelled }
{}

/// What a line spells is what it is read as, over any names and sources; so no line spells two operators.
pub fn spelled_lines_are_read()
    ensures { SpelledLinesAreRead }
{}

/// The tests of an operator decide what a valid plan needs of it, its path apart.
pub fn fit_is_decided()
    ensures { FitIsDecided }
{}

/// Operators that pass the checks of their lines pass those of all lines together exactly where their plan is valid.
pub fn whole_is_valid()
    ensures { WholeIsValid }
{}

/// The text of a valid plan of at most 10,000 operators that can be written is read as that plan, its named variables numbered in the order in which
/// the text first has them.
pub fn written_plans_are_read()
    ensures { WrittenPlansAreRead }
{}
