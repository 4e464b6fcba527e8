//! The relevant objects of a program over its flow graphs, step by step.

mod theorems;

pub use theorems::{objects_found_in_steps_are_relevant, relevant_objects_are_of_functions};
