//! The outside of the program: files that are read whole and sinks that take bytes, each as a trait,
//! in memory and of the system.
#![tactic(auto)]

// files and sinks
mod files;
mod sink;

// those in memory
mod mem_files;
mod mem_sink;

// those of the system
mod os_files;
mod os_sink;

pub use files::{FileFault, Files};
pub use mem_files::MemFiles;
pub use mem_sink::MemSink;
pub use os_files::OsFiles;
pub use os_sink::OsSink;
pub use sink::{Sink, SinkFailed};
