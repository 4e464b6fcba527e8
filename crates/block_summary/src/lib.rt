//! Summaries of blocks: what a tuple at the head of a block leads to is worked out once, kept, and lent to whoever enters the block with it again.
#![tactic(auto)]

// what is kept
mod exits;
mod keys;
mod summary;

pub use exits::Exits;
pub use keys::Entered;
pub use summary::BlockSummary;
