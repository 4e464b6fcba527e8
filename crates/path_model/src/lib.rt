//! What a checker reports of a program, as definitions: the moves, choices and reports of a checker, the paths of a program under it, and
//! these over flow graphs.
#![tactic(auto)]

// checkers and paths of programs
mod checker_model;
mod checker_programs;

// the same over flow graphs
mod checker_graphs;

pub use checker_graphs::{
    followed_objects_are_closed_in_graphs, functions_have_one_number, functions_have_their_graphs,
    functions_stand_apart, graphs_have_the_traces, graphs_report_the_same,
    relevant_objects_are_closed_in_graphs,
};
pub use checker_model::{
    ends_are_quiet, handed_back_objects_become_theirs, one_object_at_a_time,
    other_events_ignore_frames,
};
pub use checker_programs::{
    calls_hand_back_what_becomes, followed_objects_are_closed, followed_objects_are_relevant,
    relevant_objects_are_closed, relevant_objects_are_objects, roots_are_uncalled_or_remain,
};
