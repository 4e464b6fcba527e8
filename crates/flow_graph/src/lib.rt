//! Events of C functions, the evaluation of expressions, flow graphs that have exactly the traces of their functions, and the blocks of
//! these that control comes to.
#![tactic(auto)]

// events and their facts
mod event;
mod facts;

// graphs and their traces
mod c_paths;
mod graph;
mod reading;

// drafts of blocks
mod builder;
mod draft;

// labels, switches and zero
mod labels;
mod switches;
mod zero;

// blocks of expressions and statements
mod declarations;
mod expressions;
mod operators;
mod statements;

// whole graphs
mod bodies;
mod forwarders;
mod joining;
mod kept_blocks;
mod reached_blocks;
mod settling;
mod targets;

pub use bodies::build_body;
pub use c_paths::{
    built_graphs_are_sound, built_graphs_have_the_traces, built_graphs_stand_in_the_text,
    finished_lists_are_all, graphs_have_the_traces, joined_blocks_keep_the_traces,
    listed_are_traces, redirected_ends_keep_the_traces,
};
pub use event::{Event, Variable};
pub use facts::Facts;
pub use graph::{Block, End, Graph};
pub use reached_blocks::reached;
