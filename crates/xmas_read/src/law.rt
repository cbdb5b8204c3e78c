// What holds of canonical texts.
ghost use Rattle.xmas_read.specs.Again.{CanonicalIsReadAgain};

/// A rule that is read from some text over sources of some names is read from its canonical text, which `write_rule` writes, over
/// the same sources; and nothing else is read from that text, unless memory runs out.
pub fn canonical_text_is_read_again()
    ensures { CanonicalIsReadAgain }
{}
