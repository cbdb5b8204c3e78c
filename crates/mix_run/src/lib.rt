//! What a plan over placed sources answers: the steps of a script, and the lines of a client that is alive.
#![tactic(auto)]

mod asked;
mod counting;
mod law;
mod looping;
mod outcome;
mod running;
mod talking;
mod writing;

pub use law::{
    bounded_plans_have_that_bound, bounded_views_have_that_bound, plans_are_finished,
    runs_without_tables_are_unmarked,
};
pub use outcome::Outcome;
pub use running::{RunForm, Running, load_given, run};
pub use talking::{Talking, talk};
pub use writing::{refuse, write_line, write_lines};
