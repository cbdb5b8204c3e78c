// What is asked outside of the program.

/// What is asked outside of the program beside files: tables, and sources of other machines.
#[derive(Drop)]
pub struct Stores<T, R> {
    pub tables: T,
    pub fars: R,
}
