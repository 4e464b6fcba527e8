//! The grammar of C's declarations, statements, functions and translation units as a predicate on syntax trees, a plain
//! reader of it over lists of symbols, and the proofs that the reader gives exactly the trees of the grammar.

mod theorems;

pub use theorems::{chunks_are_read, parses_are_unique, reading_is_complete, reading_is_sound};
