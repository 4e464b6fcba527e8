//! Followed calls by number: with which states a callee's objects begin, which of them are handed back, and what the caller saves.

// what passes at a call
mod entries;
mod returns;

// the whole call
mod calls;

pub use calls::call_rows;
pub use entries::entered_rows;
pub use returns::{handed_rows, saved_flags};
