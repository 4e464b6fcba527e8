//! What it means to read bytes as the tokens of C or of a checker: the definition, and proofs about it.

mod fault;
mod mode;

pub use fault::Fault;
pub use mode::Mode;
