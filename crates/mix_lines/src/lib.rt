//! Requests, each answered by a line before the next is asked for: the steps of a script, on the document of a plan or of one source, and
//! the lines of a client that is alive, on the document of a plan.
#![tactic(auto)]

mod fault;
mod input_lines;
mod line;
mod lines;
mod page;
mod reader;
mod requests;
mod run;
mod steps;
mod talk;
mod walk;

pub use fault::LinesFault;
pub use line::write_line;
pub use run::run_lines;
pub use talk::talk_lines;
pub use walk::walk_lines;
