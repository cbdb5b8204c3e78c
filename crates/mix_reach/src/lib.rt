//! Mounted documents beside sources of other machines, as sources.
#![tactic(auto)]

mod reached;
mod site;
mod stores;

pub use reached::Reached;
pub use site::Site;
pub use stores::Stores;
