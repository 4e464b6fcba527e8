//! The relevant objects of a program under a checker.

mod search;

pub use search::all_relevant;
