//! Sources and sinks of bytes, their forms in memory, and how a source is read and a sink is written whole.
#![tactic(auto)]

mod mem_streams;
mod read_source;
mod streams;
mod write_sink;

pub use mem_streams::{MemSink, MemSource};
pub use read_source::{ReadFault, read_at_most};
pub use streams::{IoFailed, Sink, Source};
pub use write_sink::write_all;
