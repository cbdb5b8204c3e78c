//! Texts of cases: their parts, the forms that these have, and a run of the cases that tells where what came is not what was wanted
//! (docs/CASES.md).
#![tactic(auto)]

mod differ;
mod fault;
mod form;
mod part;
mod piece;
mod run;
mod table;

pub use differ::{differing_line, differing_number};
pub use fault::{Defect, Fault};
pub use form::{Form, Shape, Times, check_parts};
pub use part::{Part, has_part, number, numbers, part_of};
pub use run::{Judge, run_texts};
pub use table::tables_of;
