//! What the texts of the plans of views need to be read as these plans.
#![tactic(auto)]

mod law;

pub use law::{catalogs_are_numbered, plans_of_views_are_read_again, plans_of_views_are_writable};
