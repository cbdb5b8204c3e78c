//! What is read off a plan before any binding: what its operators are made of, which variables they bind, and by which of them a join looks its right side up.
#![tactic(auto)]

mod forms;
mod link;
mod variables;

pub use forms::{
    count_pieces, element_label, element_list, group_keys, input_of, last, operator, piece, text,
};
pub use link::{Link, LinkKind, Side, links, only_label};
pub use variables::{binds, names_var, var_of};
