//! What a checker is once it is read: holes, states, rules with their patterns, callouts and messages, the limits of all of
//! these, and the rules by their numbers.

mod theorems;

pub use theorems::rules_are_found;
