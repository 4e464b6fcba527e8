//! What a checker reports of a program: its paths from the roots on, with matching calls and returns, as definitions.

mod theorems;

pub use theorems::{
    calls_hand_back_what_becomes, followed_objects_are_closed, followed_objects_are_relevant,
    relevant_objects_are_closed, relevant_objects_are_objects, roots_are_uncalled_or_remain,
};
