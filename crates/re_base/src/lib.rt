//! The outside: files that are read by name, sinks that bytes are put into, and watches that say
//! when to stop.
//!
//! Each object counts its own faults, and a call fails only where its count rose; a watch counts
//! how often it said stop. `Never` says so never, and `StopAt` from a given question on. `MemFiles`
//! and `MemSink` stand in memory and fail where a test asks for it; `HostFiles` and `HostOut` are
//! the system's, of which nothing is told. The words of the contracts stand in `specs/`:
//! `Causes.antt` says when a fault or a stop may be answered, `Told.antt` what a text that is told
//! says of an answer, `MemFiles.antt` and `MemSink.antt` what the two in memory do exactly, and
//! `Watches.antt` when `StopAt` says stop.
#![tactic(auto)]

mod files;
mod host_files;
mod host_out;
mod mem_files;
mod mem_sink;
mod sink;
mod tally;
#[cfg(test)]
mod tests;
mod watch;

pub use files::{FileFault, Files};
pub use host_files::HostFiles;
pub use host_out::HostOut;
pub use mem_files::MemFiles;
pub use mem_sink::MemSink;
pub use sink::{Sink, SinkFailed, put_all};
pub use watch::{Never, StopAt, Watch};

/// The most bytes that a file may hold.
pub const LONGEST_FILE: usize = 65_536;
