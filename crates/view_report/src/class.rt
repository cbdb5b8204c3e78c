// The class of a view, in words.
ghost use Rattle.std.specs.Prelude.{◌≡◌, ◌++◌, IfOk};
ghost use Rattle.view_class.specs.Lines.{class_line};
ghost use Rattle.view_report.specs.Report.{class_words, meaning_of};

use browse_class::Class;
use std::alloc::{AllocError, Global};
use view_class::class_line;

// What a class says of steps.
fn meaning_of(class: Class) -> &'static str
    ensures { result.now ≡ meaning_of class }
{
    match class {
        Class::Bounded(_) =>
            "no step down or right asks for more pieces than this, where tables hold what the catalog says of them\n",
        Class::Browsable => {
            "no number is known: a step goes on until it finds its node, and may have to pass over any number of others\n"
        }
        Class::Unbrowsable =>
            "a list is sorted by ORDER BY, so that its first step needs the whole of it\n",
    }
}

/// The line of a class, and what it says of steps. `Err`: memory.
pub fn class_words(alloc: Global, class: Class) -> Result<Vec<u8>, AllocError>
    ensures { IfOk result (λ words. words.items ≡ class_words class) }
{
    let line = class_line(alloc, class)?;
    let mut words = Vec::from_slice(alloc, line.as_bytes())?;
    words.extend_from_slice(meaning_of(class).as_bytes())?;
    Ok(words)
}
