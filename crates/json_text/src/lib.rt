//! JSON texts as documents: the values of a text as trees, which lie as the documents of bracket text do.
#![tactic(auto)]

mod fault;
mod reading;
mod stop;
mod values;

pub use fault::JsonFault;
pub use reading::read_json;
