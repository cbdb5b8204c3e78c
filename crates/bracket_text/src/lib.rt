//! Bracket text: trees whose children stand in brackets after their label, with commas between them.
#![tactic(auto)]

mod ascii;
mod fault;
mod law;
mod reader;
mod reading;
mod writing;

pub use ascii::is_utf8_text;
pub use fault::BracketFault;
pub use law::no_text_spells_two;
pub use reading::{read_document, read_tree};
pub use writing::{push_tree, write_tree};
