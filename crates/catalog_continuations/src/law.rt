// What is promised of a front with which words of a form are a line.
ghost use Rattle.catalog_continuations.specs.GoesOn.{FittingGoOn};

/// Some line that a catalog may have begins with a front with which the last words of a form are a line; and a blank or nothing stands there behind it.
pub fn fitting_fronts_go_on()
    ensures { FittingGoOn }
{}
