//! What a checker makes of events, calls and returns: moves, passing of states, choices and reports, as definitions over whole maps
//! from objects to states, and the laws that they keep to.

mod theorems;

pub use theorems::{
    ends_are_quiet, handed_back_objects_become_theirs, one_object_at_a_time,
    other_events_ignore_frames,
};
