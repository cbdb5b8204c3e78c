//! Scripts: their steps, the lines that answer them, what the clients' names hold, and the transcript as a definition.
#![tactic(auto)]

mod answer;
mod forms;
mod law;
mod line;
mod names;
mod script;
mod step;
mod words;

pub use answer::{Answer, Text, usual_line, write_answer};
pub use law::{clients_are_apart, plain_steps_stay, selects_are_spelled, texts_are_spelled};
pub use names::Names;
pub use script::{ScriptFault, read_line, read_script, read_script_ids};
pub use step::{Act, Forms, LineRead, Step, Way};
