//! Tests of files, sinks and pipes: those of the system, and those in memory that fail where they are told to.
#![tactic(auto)]

#[cfg(test)]
mod files;
