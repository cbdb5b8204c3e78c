// Laws of streams that are served.
ghost use Rattle.mix_serve.specs.Ends.{EndsAreApart};
ghost use Rattle.mix_serve.specs.Replied.{PiecesAreAnsweredAsOne};

/// A stream that is answered piece by piece is answered as one.
pub fn pieces_are_answered_as_one()
    ensures { PiecesAreAnsweredAsOne }
{}

/// A stream that ends whole is neither broken nor too long, and one that is broken isn't too long.
pub fn ends_are_apart()
    ensures { EndsAreApart }
{}
