//! Where the text of a run goes.
//!
//! A [`Sink`] takes the bytes of each write as one piece, or says that it failed and counts it.
//! [`MemSink`] keeps the pieces and shows them to contracts; its calls fail where a test wants them
//! to. [`StdSink`] writes to the standard output and shows nothing.
//!
//! What no contract can say is which bytes reach the system. So writing is [`write_whole`], over
//! any writer: all bytes were taken in order and flushed, or a call failed after a front of them. A
//! [`CountedWriter`] counts the calls that failed, so that no failure can pass for a success. Its
//! limit: no contract of a writer says when its flush fails, so one line is read and not proved,
//! the one in which `flush` takes note of what the writer inside answered. Counts come from
//! `sc_base`; the crate knows nothing of values or runs.
#![tactic(auto)]

mod host;
mod memory;
mod sink;
mod whole;
mod writers;

pub use host::StdSink;
pub use memory::MemSink;
pub use sink::{Sink, SinkAnswer};
pub use whole::write_whole;
pub use writers::{CountedWriter, WriteFailed};
