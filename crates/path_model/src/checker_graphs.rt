//! The flow graphs of a program under a checker: what they are, and that what the checker reports of them is what it reports of
//! the program.

mod theorems;

pub use theorems::{
    followed_objects_are_closed_in_graphs, functions_have_one_number, functions_have_their_graphs,
    functions_stand_apart, graphs_have_the_traces, graphs_report_the_same,
    relevant_objects_are_closed_in_graphs,
};
