//! The names that stand in a pattern, and those of them that are holes.

mod holes;
mod mentioned;

pub use holes::{is_among, number_among, with_holes};
pub use mentioned::mentions;
