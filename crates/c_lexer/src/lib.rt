//! Reads bytes as the tokens of C or of a checker, and what it means to read them.
#![tactic(auto)]

// tokens and what reading means
mod c_reading;
mod fault;
mod tokens;

// bytes, literals and numbers
mod bytes;
mod constants;
mod literals;
mod numbers;

// words and punctuators
mod punctuators;
mod spellings;
mod words;

// pieces and where they stand
mod here;
mod markers;
mod pieces;

// whole sources and their tokens
mod chunk_bounds;
mod kinds;
mod lexer;
mod stripping;

pub use c_reading::Mode;
pub use chunk_bounds::{chunks, is_cut};
pub use fault::{LexFault, Spot};
pub use lexer::lex;
pub use stripping::strip;
pub use tokens::Tokens;
