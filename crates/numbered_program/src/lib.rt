//! The rows of a program under a checker: the objects that are followed in each function and the states of objects by number, what the events
//! of blocks do to them, what calls pass, and the program as a whole, so that an engine tabulates over numbers alone what paths do.
#![tactic(auto)]

// objects and states by number, what events do to them, and what calls pass
mod event_tables;
mod numbered_calls;
mod numbered_tuples;

// why rows stand for events
mod numbered_events;

// out of what the rows of a program are made
mod numbers;
mod swaps;

// functions
mod blocks;
mod endings;
mod functions;

// programs, and that their rows stand for them
mod begun;
mod program;
mod theorems;

pub use event_tables::{event_row, event_rows};
pub use numbered_calls::{entered_rows, handed_rows, saved_flags};
pub use numbered_events::{blocks_stand_for_events, rows_stand_for_events};
pub use numbered_tuples::{Numbering, ObjectStates};
pub use program::program_rows;
pub use swaps::swapped;
pub use theorems::rows_stand_for_programs;
