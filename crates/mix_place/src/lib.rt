//! The files that commands read whole, each accepted or refused, and the sources of a plan, placed for it.
#![tactic(auto)]

mod load;
mod mounting;
mod names;
mod placing;
mod readers;
mod refusal;
mod siting;
mod viewing;

pub use load::{load_base, load_catalog, load_plan, load_rule, load_script, mount_alone};
pub use mounting::mount_all;
pub use names::source_names;
pub use placing::{Placement, place_sources};
pub use refusal::{FileFault, Refusal, Stop, refused};
pub use siting::read_all_sites;
pub use viewing::{load_view, load_views};
