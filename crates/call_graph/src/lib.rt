//! Programs: typed units side by side, linked, with the flow graph of each function, and the calls that are followed under a checker.
#![tactic(auto, using(c_tree::proofs::Rows::nodes_out))]

// programs linked from units
mod fault;
mod linking;
mod programs;

// flow graphs and followed calls
mod following;
mod function_graphs;
mod patterns;

pub use fault::LinkFault;
pub use following::followed;
pub use function_graphs::{UnitFacts, build};
pub use linking::link;
pub use programs::{FnId, Functions, Program, units_are_listed};
