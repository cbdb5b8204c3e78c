//! Tests of what goes over a wire, by its bytes, and a source of one leaf for them.
#![tactic(auto)]

mod leaf;

pub use leaf::{Leaf, ROOT};

#[cfg(test)]
mod fars;
#[cfg(test)]
mod lists;
#[cfg(test)]
mod remotes;
#[cfg(test)]
mod replies;
#[cfg(test)]
mod requests;
#[cfg(test)]
mod servers;
