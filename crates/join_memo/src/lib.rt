//! A list of pairs of a label and an item that grows at its end, its members found by their labels.
#![tactic(auto)]

mod known;
mod law;
mod memo;

pub use law::look_ups_find_all;
pub use memo::{Memo, PushRefused};
