//! Which paths of a plan are unsatisfiable: those that match nothing, whatever documents of given shapes its sources have.
#![tactic(auto)]

mod bound;
mod domains;
mod law;
mod path;

pub use law::unsatisfiable_paths_have_no_match;
pub use path::{UnsatisfiablePath, unsatisfiable_in};
