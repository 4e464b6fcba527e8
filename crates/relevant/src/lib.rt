//! The relevant objects of a program's functions under a checker: those that rules bind in the blocks that control comes to, and all that are
//! found from them by the links between objects.
#![tactic(auto)]

// bound and linked objects
mod bound_members;
mod linked_objects;

// the search over a program
mod program_rows;
mod relevant_objects;
mod relevant_rows;

// the relevant objects of functions
mod relevant_lists;
mod relevant_steps;

pub use bound_members::bound;
pub use linked_objects::callee_objects;
pub use program_rows::rows_of;
pub use relevant_lists::{all_relevant_objects, followed_objects};
pub use relevant_objects::{FollowedCall, FunctionRow, copies, row_at};
pub use relevant_steps::{objects_found_in_steps_are_relevant, relevant_objects_are_of_functions};
