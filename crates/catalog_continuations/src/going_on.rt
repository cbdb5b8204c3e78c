// Whether a catalog's line goes on after a front.
ghost use Rattle.std.specs.Prelude.{◌≡◌, IfOk};
ghost use Rattle.catalog_continuations.specs.GoesOn.{Fits, FitsForm, IsOneLine, Tells};

use crate::line_form::{FORMS, LineForm};
use crate::tried::goes_on_with;
use std::alloc::{AllocError, Global};

// Whether a front and then the last words of a form are a line. `Err`: memory.
fn fits_form(alloc: Global, front: &[u8], form: LineForm) -> Result<bool, AllocError>
    requires { IsOneLine front.now }
    ensures { IfOk result (Tells (FitsForm front.now form)) }
{
    let words = form.words();
    for passed in 0..words.len() + 1 {
        if goes_on_with(alloc, front, &words[passed..])? {
            return Ok(true);
        }
    }
    Ok(false)
}

/// Whether a front and then the last words of some form are a line. `Err`: memory.
pub fn goes_on(alloc: Global, front: &[u8]) -> Result<bool, AllocError>
    requires { IsOneLine front.now }
    ensures { IfOk result (Tells (Fits front.now)) }
{
    for form in FORMS {
        if fits_form(alloc, front, *form)? {
            return Ok(true);
        }
    }
    Ok(false)
}
