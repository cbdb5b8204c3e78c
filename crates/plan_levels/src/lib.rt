//! Levels of a text and the trees to which they lead: a tree is entered in one way, levels enter one tree, and their numbers and evidence tell which.
#![tactic(auto)]

mod law;

pub use law::{entered_once, levels_enter_once, members_are_told, singles_are_told};
