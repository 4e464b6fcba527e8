//! The basic types of C by the words that they are written with.

mod basic;
mod words;

pub use basic::{Basic, basic_type, is_basic};
pub use words::same_words;
