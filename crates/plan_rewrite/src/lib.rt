//! Plans whose selections are moved below joins, or into them.
#![tactic(auto)]

mod block;
mod copy;
mod edit;
mod law;
mod mark;
mod raise;
mod rewriting;
mod taking;
mod way;

pub use law::{rewriting_keeps_documents, rewriting_keeps_validity};
pub use rewriting::{plan_view, rewrite};
