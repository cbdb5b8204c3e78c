//! What steps in the lists of a view's answer cost at most, list by list, in words; or why no number is promised.
#![tactic(auto)]

mod answer_list;
mod causes;
mod law;
mod lists;
mod nested;
mod reasons;
mod told;
mod words;

pub use law::{class_is_of_lists, lists_cost_as_told};
pub use told::list_words;
