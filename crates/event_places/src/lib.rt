//! Where the events of a program stand: each at a token, so that no error transition is without a report; the closing brace of a body at its
//! last token; which tokens a message spells; and that no frame knows another function's local. Theorems in the contracts of functions that do
//! nothing.
#![tactic(auto)]

mod theorems;

pub use theorems::{
    bodies_end_at_their_last_tokens, ends_ask_own_locals, errors_are_reported,
    errors_of_files_are_reported, events_of_files_stand_at_tokens, events_stand_at_tokens,
    global_errors_are_reported, known_locals_are_own, known_locals_of_files_are_declared,
    taken_trees_are_spelled, texts_of_files_stand, trees_are_spelled_by_their_tokens,
};
