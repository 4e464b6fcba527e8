//! The relevant objects of functions: all that are found from those that rules bind, by the links between objects.

mod calls;
mod events;
mod members;
mod rows;
mod search;
mod steps;

pub use rows::{FollowedCall, FunctionRow};
pub use search::relevant;
pub use steps::{copies, row_at};
