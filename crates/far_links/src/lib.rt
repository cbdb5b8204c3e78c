//! Sources of other machines, reached over links.
#![tactic(auto)]

mod asked;
mod dial;
mod fault;
mod filling;
mod holes;
mod line;
mod lines;
mod links;
mod noting;

pub use dial::Dial;
pub use fault::FarFault;
pub use links::FarLinks;
