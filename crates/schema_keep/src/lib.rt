//! Which tables a file has: the trait `Schemas`, and schemas in memory.
#![tactic(auto)]

mod fault;
mod mem_schemas;
mod schemas;
mod shape;

pub use fault::SchemaFault;
pub use mem_schemas::{MemSchema, MemSchemas};
pub use schemas::Schemas;
pub use shape::TableShape;
