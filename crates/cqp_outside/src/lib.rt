//! The outside world: sources and sinks of bytes, whole reads and whole writes.
#![tactic(auto)]

mod call_log;
mod failed;
mod lists;
mod mem_sink;
mod mem_source;
mod reading;
mod rest;
mod sink;
mod source;
mod standard;
mod sure_source;
mod writing;

pub use cqp_lists::NoMemory;
pub use failed::Failed;
pub use lists::{Bytes, Numbers};
pub use mem_sink::MemSink;
pub use mem_source::MemSource;
pub use reading::{ReadEnd, read_all};
pub use sink::Sink;
pub use source::Source;
pub use standard::{StdSink, StdSource};
pub use sure_source::SureSource;
pub use writing::write_all;
