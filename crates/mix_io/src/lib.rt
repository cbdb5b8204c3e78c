//! Files that are read at an offset, inputs and sinks for bytes: in memory, and of the system.
#![tactic(auto)]

mod files;
mod input;
mod mem_files;
mod mem_input;
mod mem_sink;
mod os_files;
mod sink;
mod std_input;
mod std_sink;
mod streams;
mod whole;

pub use files::{Files, ReadAtFault};
pub use input::{Input, TakeFault};
pub use mem_files::{MemFile, MemFiles};
pub use mem_input::MemInput;
pub use mem_sink::MemSink;
pub use os_files::OsFiles;
pub use sink::{Sink, SinkFault};
pub use std_input::StdInput;
pub use std_sink::StdSink;
pub use streams::Streams;
pub use whole::{ReadWhole, WHOLE_LIMIT, read_whole};
