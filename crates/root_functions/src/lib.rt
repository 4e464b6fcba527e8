//! The roots of a program under a checker: the calls that bodies evaluate, what leads where, and where paths begin.
#![tactic(auto)]

// calls, and roots of graphs
mod call_sites;
mod graph_roots;

// callees and roots of programs
mod callees;
mod root_list;

pub use root_list::roots;
