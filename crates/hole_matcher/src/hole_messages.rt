//! The texts of messages: what the holes of a rule took, as it is spelled in the text, and the objects of state variables.
#![tactic(auto, using(c_tree::proofs::Rows::nodes_out))]

mod names;
mod places;
mod short;
mod spelled;
mod taken;
mod written;

pub use names::name_text;
pub use places::from_place;
pub use written::write_message;
