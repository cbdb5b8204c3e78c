//! A link over two files of the system: requests are written into one, and replies are read from the other.
#![tactic(auto)]

mod file_link;
mod loss;
mod open_files;
mod receiving;

pub use file_link::FileLink;
