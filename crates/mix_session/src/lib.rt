//! Sessions: clients walk one document by commands, each by names of its own. The document is a plan's, or that of one source.
#![tactic(auto)]

mod plan;
mod printing;
mod searching;
mod session;
mod source;
mod walker;

pub use printing::print;
pub use searching::select;
pub use session::Session;
pub use walker::{Found, Walker};
