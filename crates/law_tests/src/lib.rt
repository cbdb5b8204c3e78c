//! Tests of labels, trees, JSON texts, identifiers, paths, catalogs, rules and unsatisfiable paths that only a call of a library shows, and calls of their laws.
#![tactic(auto)]

#[cfg(test)]
mod brackets;
#[cfg(test)]
mod catalogs;
#[cfg(test)]
mod json_texts;
#[cfg(test)]
mod labels;
#[cfg(test)]
mod made;
#[cfg(test)]
mod nodes;
#[cfg(test)]
mod paths;
#[cfg(test)]
mod remotes;
#[cfg(test)]
mod rules;
#[cfg(test)]
mod tables;
#[cfg(test)]
mod unsatisfiable;
