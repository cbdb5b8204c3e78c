// What holds of every script and every transcript.
ghost use Rattle.mix_script.specs.Clients.{ClientsAreApart};
ghost use Rattle.mix_script.specs.Selects.{SelectsAreSpelled};
ghost use Rattle.mix_script.specs.Steps.{PlainStepsStay};
ghost use Rattle.mix_script.specs.Texts.{TextsAreSpelled};

/// Each client's lines are the transcript of its own steps alone, under their notes, whatever steps of others come between.
pub fn clients_are_apart()
    ensures { ClientsAreApart }
{}

/// A line without a prefix asks for a `select` of a label exactly where the words `X = select Y` stand before a spelling of that label, and
/// no word after it (docs/FORMATS.md, "Scripts").
pub fn selects_are_spelled()
    ensures { SelectsAreSpelled }
{}

/// A line without a prefix that may have the forms of identifiers asks for an `at` of what an identifier says exactly where its
/// words are `X = at TEXT` and TEXT spells that, and for an `id` of a name exactly where its words are `id Y` (docs/FORMATS.md,
/// "Scripts").
pub fn texts_are_spelled()
    ensures { TextsAreSpelled }
{}

/// A script whose lines all are of the forms without identifiers has the same steps where lines may have those of identifiers too.
pub fn plain_steps_stay()
    ensures { PlainStepsStay }
{}
