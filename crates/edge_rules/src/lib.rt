//! The rules of tabulation: which path edges follow from one, by how its block ends, and who waits for the end of a function and is woken.
#![tactic(auto)]

// callees and how they are entered
mod callees;
mod entering;

// ends of blocks and frames
mod crossing;
mod frame_ends;

// the rules of path edges
mod base;
mod following;
mod wait_rules;

pub use base::begin;
pub use crossing::behind;
pub use following::next_edges;
pub use frame_ends::end_of;
pub use wait_rules::{waits, wake};
