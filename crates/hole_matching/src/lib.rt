//! Matching of patterns with holes on trees of C, the conditions on what holes take, and the text of a message, as definitions
//! over syntax trees, with the proofs on them that a matcher rests on.
#![tactic(auto)]

mod theorems;

pub use theorems::{
    alternatives_are_matched, bindings_are_unique, compared_level_by_level, copies_are_compared,
    equal_trees_match, patterns_are_matched, same_trees_are_equal,
};
