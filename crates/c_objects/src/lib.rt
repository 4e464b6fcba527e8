//! Access paths: the objects that expressions of C name, steps behind them, one path put in the place of another, and their
//! texts, as definitions over syntax trees, with the laws that hold of them.
#![tactic(auto)]

mod theorems;

pub use theorems::{
    append_gives_objects, begins_with_is_rest, depth_cuts_off, rebase_gives_objects,
    replaced_objects_become_theirs, rest_is_rebased, steps_are_joined, trees_have_objects,
};
