//! Copies of syntax trees in another arena.

mod copies;

pub use copies::copy_tree;
