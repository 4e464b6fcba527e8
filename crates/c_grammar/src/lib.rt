//! The grammar of C as a predicate on syntax trees, a plain reader of it over lists of symbols, the proofs that the reader gives exactly the
//! trees of the grammar, where trees stand, and the names that are types at a place. At the top are expressions, type names, specifiers and declarators.
#![tactic(auto)]

mod c_places;
mod theorems;
mod type_names;
pub mod unit_grammar;

pub use c_places::{numbers_rise, places_are_first};
pub use theorems::{parses_are_read, parses_are_unique, reading_is_complete, reading_is_sound};
pub use type_names::TypeNames;
pub use unit_grammar::chunks_are_read;
