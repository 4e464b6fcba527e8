//! The files of a request from their words to their reports: read and judged by themselves, linked, and checked.

mod judging;
mod lending;
mod locating;
mod unjudged;

pub use judging::judge_files;
pub use unjudged::Unjudged;
