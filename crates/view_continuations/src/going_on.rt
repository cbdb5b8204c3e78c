// Whether a view's text goes on after a front, and whether it is whole.
ghost use Rattle.std.specs.Prelude.{◌≡◌, IfOk};
ghost use Rattle.view_continuations.specs.Fits.{GoesOn, IsWhole, Tells};

use std::alloc::{AllocError, Global};
use xmas_text::{TextFault, parse_rule};

/// Whether the text of some rule begins with a text. `Err`: memory.
pub fn goes_on(alloc: Global, text: &str) -> Result<bool, AllocError>
    ensures { IfOk result (Tells (GoesOn text.now)) }
{
    match parse_rule(alloc, text.as_bytes()) {
        Ok(rule) => {
            // The rule is given to `drop`, so that how its parts are dropped is proved once.
            drop(rule);
            Ok(true)
        }
        Err(TextFault::EndsEarly) => Ok(true),
        Err(TextFault::TooDeep) => Ok(true),
        Err(TextFault::NotUtf8(_)) => Ok(false),
        Err(TextFault::Unexpected(_)) => Ok(false),
        Err(TextFault::OutOfMemory) => Err(AllocError),
    }
}

/// Whether a text is that of a rule. `Err`: memory.
pub fn is_whole(alloc: Global, text: &str) -> Result<bool, AllocError>
    ensures { IfOk result (Tells (IsWhole text.now)) }
{
    match parse_rule(alloc, text.as_bytes()) {
        Ok(rule) => {
            drop(rule);
            Ok(true)
        }
        Err(TextFault::EndsEarly) => Ok(false),
        Err(TextFault::TooDeep) => Ok(true),
        Err(TextFault::NotUtf8(_)) => Ok(false),
        Err(TextFault::Unexpected(_)) => Ok(false),
        Err(TextFault::OutOfMemory) => Err(AllocError),
    }
}
