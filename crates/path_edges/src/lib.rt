//! Path edges as values of an engine: what they stand for, what follows from them by the rules of tabulation, and that a least list of them
//! shows exactly what a checker reports of a program.
#![tactic(auto)]

// path edges and their steps
mod edge_steps;
mod edges;

// what least edges report
mod theorems;

pub use edge_steps::{
    copy_context, copy_tuple, entered, first_edges, onward, put_back_edge, waits_for, woken,
};
pub use edges::{Context, Edge, Waiter};
pub use theorems::{empty_edges_meet, least_edges_report};
