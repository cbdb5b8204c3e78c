//! Of each text it can be told which node of a plan's document it names.
#![tactic(auto)]

mod law;

pub use law::texts_have_senses;
