//! The events of a function of C, the evaluation of its expressions, its traces, and flow graphs with these traces.

mod theorems;

pub use theorems::{
    built_graphs_are_sound, built_graphs_have_the_traces, built_graphs_stand_in_the_text,
    finished_lists_are_all, graphs_have_the_traces, joined_blocks_keep_the_traces,
    listed_are_traces, redirected_ends_keep_the_traces,
};
