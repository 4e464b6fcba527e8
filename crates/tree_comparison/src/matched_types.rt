//! Types of a unit as matching compares them: with each other, and with the types that a checker writes.
#![tactic(auto, using(c_tree::proofs::Rows::nodes_out))]

mod listed;
mod types;
mod words;
mod written;

pub use types::same_type;
pub use written::{is_named_type, is_written_type};
