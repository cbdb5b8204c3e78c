//! Documents that are given piece by piece, so many children at a time.
#![tactic(auto)]

mod bracket;
mod giving;
mod holes;

pub use bracket::BracketDoc;
