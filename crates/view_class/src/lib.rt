//! The class of a plan over the sources of a catalog: which sources a plan reads, the shapes of their documents, and the line of the class.
#![tactic(auto)]

mod classing;
mod law;
mod line;
mod reads;
mod shapes;

pub use classing::class_over;
pub use law::{plans_read_named_sources, sources_are_laid, unread_sources_dont_matter};
pub use line::class_line;
pub use reads::reads_source;
pub use shapes::shapes_in;
