// What holds of cursors from call to call.
ghost use Rattle.lazy_binding.specs.Keeping.{CursorsStay};

/// Whatever a call leaves of the sources, their buffers and the keys that were seen, each earlier cursor stands for the same binding, with the
/// same events after it, and its number did not rise.
pub fn cursors_stay()
    ensures { CursorsStay }
{}
