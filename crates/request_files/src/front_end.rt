//! Reads a file from its bytes to its tokens, and these to a checker's machine or to a C file's unit with types.

mod machines;
mod refusal;
mod tokens;
mod units;

pub use machines::read_checker;
pub use refusal::{Faulty, Refusal};
pub use tokens::read_tokens;
pub use units::read_typed;
