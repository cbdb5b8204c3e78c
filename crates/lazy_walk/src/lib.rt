//! The document of a plan, walked node by node by identifiers that stay.
#![tactic(auto)]

mod above;
mod finding;
mod ids;
mod law;
mod leading;
mod marking;
mod naming;
mod stage;
mod stepping;
mod walk;

pub use ids::WalkedNode;
pub use law::{
    identifiers_stay, trees_are_there, trees_stay, valid_plans_have_documents, walks_are_kept,
};
pub use lazy_plan::WalkFault;
pub use stage::{Passed, Stage};
pub use walk::Walk;
