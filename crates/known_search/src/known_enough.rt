//! What the search for known objects finds is enough to be followed.

mod theorems;

pub use theorems::{copy_is_found, found_objects_are_enough, found_objects_report};
