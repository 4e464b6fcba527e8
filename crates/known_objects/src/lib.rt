//! The objects of a program's functions that an engine may follow: those whose state can ever be known, which rules bind or which take their
//! state from these, with calls and returns matched; and all that are relevant.
#![tactic(auto)]

// what happens to states, as lists
mod changes;
mod listing;

// these lists as links
mod filings;
mod links;
mod pairs;

// what is found over them, by function
mod program_sets;
mod search;
mod sets;
mod theorems;

// all that may matter
mod relevant_sets;

pub use program_sets::known_sets;
pub use relevant_sets::all_relevant_sets;
pub use sets::empty_sets;
pub use theorems::known_lists_are_enough;
