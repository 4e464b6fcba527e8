//! The calls in the body of a function: each that is evaluated somewhere in its text, in dead code too.
#![tactic(auto, using(c_tree::proofs::Rows::nodes_out, c_tree::proofs::Rows::nodes_drop))]

mod bodies;
mod calls;
mod declarations;
mod expressions;
mod statements;

pub use bodies::calls_in;
