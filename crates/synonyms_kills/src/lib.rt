//! Kills and synonyms: which states an assignment takes away, and which it hands on, one object at a time.
#![tactic(auto)]

mod moves;
mod sources;
mod targets;

pub use moves::is_move;
pub use sources::source_before;
pub use targets::targets_after;
