//! CSV documents as sources: a header and rows of text, given so many rows at a time.
#![tactic(auto)]

mod document;
mod fault;
mod giving;
mod marks;
mod parts;
mod reading;
mod records;
mod table;
mod weighing;

pub use document::CsvDoc;
pub use fault::CsvFault;
