//! Where syntax trees stand: the tokens of each node with their places, and the numbers of the nodes.

mod theorems;

pub use theorems::{numbers_rise, places_are_first};
