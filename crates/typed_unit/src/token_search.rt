//! The tokens of a unit from one of them on, found by halves. What they mean stands elsewhere.

mod search;

pub use search::from_number;
