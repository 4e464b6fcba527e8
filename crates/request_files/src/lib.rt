//! The files of a request: read, and judged by themselves, each before the next is read.
#![tactic(auto)]

// one file, read and judged
mod file;
pub mod front_end;

// why files are refused
mod fault;
mod stopped;
mod unread;

// all files of a request
mod checkers;
mod request;
mod sources;

pub use checkers::{CheckersRead, read_checkers};
pub use fault::{Fault, LocatedFault};
pub use file::TOTAL_LIMIT;
pub use front_end::Faulty;
pub use request::{FilesRead, read_files};
pub use sources::{SourcesRead, read_sources};
pub use unread::Unread;
