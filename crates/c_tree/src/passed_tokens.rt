//! The tokens of a syntax tree, by the number that its lines of the grammar have.

mod passed;
mod tokens;

pub use tokens::tree_tokens;
