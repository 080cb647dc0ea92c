//! Where bytes come from and where they go: sources and sinks, in memory and over std's readers and writers.
#![tactic(auto)]

mod file_sink;
mod file_source;
mod gate;
mod mem_sink;
mod mem_source;
mod sink;
mod source;
mod std_sink;
mod std_source;

pub use file_sink::FileSink;
pub use file_source::FileSource;
pub use gate::{Gate, NoGate};
pub use mem_sink::MemSink;
pub use mem_source::MemSource;
pub use sink::Sink;
pub use source::Source;
pub use std_sink::StdSink;
pub use std_source::StdSource;
