//! Tests of calls that no case of text reaches: places and keys, automata, the text and the fronts of plans that no view has, and walks over
//! a buffer by its contract alone.
#![tactic(auto)]

#[cfg(test)]
mod automata;
#[cfg(test)]
mod buffers;
#[cfg(test)]
mod documents;
#[cfg(test)]
mod fronts;
#[cfg(test)]
mod places;
#[cfg(test)]
mod plans;
