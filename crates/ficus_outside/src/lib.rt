//! The outside as the program sees it: where bytes come from, where they go, and the line between replicas.
#![tactic(auto)]

mod fail_link;
mod link;
mod mem_link;
mod mem_sink;
mod mem_source;
mod reader_source;
mod sink;
mod source;
mod std_sink;
mod std_source;
mod system;
mod writer_sink;

pub use fail_link::FailLink;
pub use link::{FetchFault, Link};
pub use mem_link::MemLink;
pub use mem_sink::{MEM_SINK_ROOM, MemSink};
pub use mem_source::MemSource;
pub use sink::Sink;
pub use source::Source;
pub use std_sink::{Output, StdSink};
pub use std_source::StdSource;
pub use system::{Runtime, System};
pub use writer_sink::{WriterSink, write_through};
