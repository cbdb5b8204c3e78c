//! Rules are read, checked and written.
#![tactic(auto)]

mod checks;
mod conds;
mod fault;
mod law;
mod loose;
mod names;
mod reading;
mod scopes;
mod sizes;
mod tags;
mod values;
mod vars;
mod writing;

pub use fault::{Large, XmasFault};
pub use law::canonical_text_is_read_again;
pub use reading::read_rule;
pub use writing::write_rule;
