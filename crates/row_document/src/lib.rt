//! Documents of rows: the trees of one, and the lists with which its parts are given.
#![tactic(auto)]

mod nodes;

pub use nodes::{name_list, push_node, push_rest, push_row};
