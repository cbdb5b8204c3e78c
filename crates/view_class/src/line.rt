// The line that tells a class.
ghost use Rattle.std.specs.Prelude.{◌≡◌, IfOk, string_bytes};
ghost use Rattle.view_class.specs.Lines.{class_line};

use browse_class::Class;
use std::alloc::{AllocError, Global};

/// The line that tells a class, with LF (docs/FORMATS.md, "Classes").
pub fn class_line(alloc: Global, class: Class) -> Result<String, AllocError>
    ensures { IfOk result (λ line. string_bytes line ≡ class_line class) }
{
    match class {
        Class::Bounded(most) => format!(in alloc; "class bounded {most}\n"),
        Class::Browsable => String::from_str(alloc, "class browsable\n"),
        Class::Unbrowsable => String::from_str(alloc, "class unbrowsable\n"),
    }
}
