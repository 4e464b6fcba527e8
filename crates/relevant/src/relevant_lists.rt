//! The relevant objects of a program's functions under a checker, as a list for each function.

mod filing;
mod lists;

pub use lists::{all_relevant_objects, followed_objects};
