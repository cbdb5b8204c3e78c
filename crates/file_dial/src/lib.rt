//! What dials links over two files of the system, for sources of other machines.
#![tactic(auto)]

mod file_dial;

pub use file_dial::FileDial;
