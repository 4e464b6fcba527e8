//! Programs that are generated from a number.

mod pieces;
mod program;

pub use program::write_program;
