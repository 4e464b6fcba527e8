//! Programs: typed units side by side, all functions that they define, and which body a called name has.
#![tactic(auto)]

mod callees;
mod functions;
mod program;
mod theorems;

pub use callees::called_name;
pub use functions::{FnId, Functions};
pub use program::Program;
pub use theorems::units_are_listed;
