//! Tuples by number: within a function each object that is followed has a number, and under a checker each state that its rules name.

// what has a number
mod numbering;
mod object_states;

// tuples of numbers
mod tuples;

pub use numbering::Numbering;
pub use object_states::ObjectStates;
