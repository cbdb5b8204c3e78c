//! Sources after a link, which are asked over it: what is kept of each, and its fills.
#![tactic(auto)]

mod asking;
mod fault;
mod filling;
mod known;
mod learning;
mod opening;
mod peer;
mod remote;
mod roots;
mod rules;
mod taking;

pub use fault::{Broken, RemoteFault, RemoteRefused, WireFault};
pub use known::KnownHoles;
pub use learning::{Unlearned, learn};
pub use opening::open_list;
pub use peer::Peer;
pub use remote::Remote;
pub use rules::{broken_rule, told_lists_keep_rules};
