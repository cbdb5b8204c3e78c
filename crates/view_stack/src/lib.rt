//! Views over sources, as sources above them.
#![tactic(auto)]

mod fact;
mod filling;
mod law;
mod layers;
mod opening;
mod part;
mod stack;
mod walking;

pub use law::{stacks_ask_below, views_are_documents};
pub use stack::{Stack, StackRefused};
