//! Bytes in and bytes out: sources, sinks, and the lines of a text.
//!
//! A fault of the outside comes only with a count that rose. `read_all` reads all bytes to the end (`all`, `end`,
//! `at_most`), or says that they are too many (`too_long`) or that a read failed (`read_rose`). `write_all` writes all
//! bytes, or a front of them if the sink fails (`all`, `part`, `fault_rose`). `Lines::next` gives the next line (`line`,
//! `too_long`). `MemSource` and `MemSink` fail exactly at the calls that they are told; `StdSource` and `StdSink` are the
//! standard streams.
#![tactic(auto)]

mod lines;
mod mem_sink;
mod mem_source;
mod sink;
mod source;
mod standard;
mod transfer;

pub use lines::{LineTooLong, Lines, MOST_LINE};
pub use mem_sink::MemSink;
pub use mem_source::MemSource;
pub use sink::{Sink, WriteFault};
pub use source::{ReadFault, Source};
pub use standard::{StdSink, StdSource};
pub use transfer::{ReadAllFault, read_all, write_all};
