//! What a visit along a path can cost below the nodes of a source whose documents have a shape, and what can stand below its bindings.
#![tactic(auto)]

mod found;
mod law;
mod samples;
mod shape;
mod visit;

pub use found::{sorts_found, sorts_profile};
pub use law::{tables_are_laid, visits_are_as_laid};
pub use samples::sample_labels;
pub use shape::{Shape, Sort, Sorts, first_sort};
pub use visit::{TableColumn, row_profile};
