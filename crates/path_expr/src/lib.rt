//! Path expressions: read from their text, written as text, and which lists of labels they describe.
#![tactic(auto)]

mod build;
mod copying;
mod fault;
mod law;
mod path;
mod positions;
mod reading;
mod scan;
mod writing;

pub use copying::copy_path;
pub use fault::PathFault;
pub use law::no_text_spells_two_paths;
pub use path::{Node, Path};
pub use positions::count_positions;
pub use reading::read_path;
pub use scan::{Scan, is_escaped, is_name, may_end_scan, scan_byte};
pub use writing::{push_path, write_path};
