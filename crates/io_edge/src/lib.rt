//! Sources and sinks of bytes, each with a count of its faults.
#![tactic(auto)]

mod copying;
mod counted;
mod failed;
mod mem_sink;
mod mem_source;
mod never_sink;
mod never_source;
mod reading;
mod sink;
mod source;
mod std_sink;
mod std_source;
mod writing;

pub use failed::Failed;
pub use mem_sink::MemSink;
pub use mem_source::MemSource;
pub use never_sink::NeverSink;
pub use never_source::NeverSource;
pub use reading::{ReadAllFault, read_all};
pub use sink::Sink;
pub use source::Source;
pub use std_sink::StdSink;
pub use std_source::StdSource;
pub use writing::{WriteFault, write_all};
