//! What the events of blocks do to the objects that are followed, by number: which states a move takes away or hands on, and which
//! alternatives of a checker's rules apply. Each is computed once; an engine that asks here sees no tree, and matches nothing.

// moves
mod object_index;
mod touched;
mod written;

// alternatives
mod alternatives;
mod bound;
mod rule_ends;

// rows of events
mod rows;

pub use object_index::ObjectIndex;
pub use rows::{block_rows, event_row, event_rows};
