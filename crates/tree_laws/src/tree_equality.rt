//! Whether two syntax trees are equal: as they are written, or as C reads them. Both are one walk, which goes level by level.

mod equality;
mod heads;
mod levels;
mod same_heads;
mod seen;

pub use equality::{equal_tree, same_tree};
