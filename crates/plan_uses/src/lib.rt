//! That each operator of the plan of a view uses of its inputs what they hold alone.
#![tactic(auto)]

mod law;

pub use law::plans_of_views_use_what_is_held;
