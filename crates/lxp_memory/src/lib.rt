//! Sources in memory: documents that come in pieces that bytes choose, and fail at the fills that a list names.
#![tactic(auto)]

mod choice;
mod chunks;
mod circle;
mod cutting;
mod document;
mod fitting;
mod memory;
mod span;
mod sums;

pub use document::Document;
pub use fitting::fit_wire;
pub use memory::MemSources;
