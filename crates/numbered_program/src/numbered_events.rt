//! Rows of events by number stand for the events: they do what the checker does that follows the objects of some lists alone.

mod theorems;

pub use theorems::{blocks_stand_for_events, rows_stand_for_events};
