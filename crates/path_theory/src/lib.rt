//! The theory of exact path analysis: what the paths of a program report is found by following one object at a time, by rules of a least
//! set. It knows no C and no Metal.
#![tactic(auto)]

mod event_walks;
mod tabulation_rules;
mod theorems;

pub use tabulation_rules::{tabulated_edges_are_realised, tabulated_reports_are_those_of_paths};
pub use theorems::{
    known_objects_are_followed, least_log_is_exact, lengths_are_those_of_paths,
    objects_are_independent, own_frames_stand_for_called_ones, path_edges_are_realised,
    prefixes_are_paths, reports_are_those_of_paths, same_marks_are_one_program,
    same_traces_are_one_program, saturated_entries_are_exact, unchanged_frames_stay,
};
