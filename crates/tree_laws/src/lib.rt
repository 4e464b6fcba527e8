//! What is asked of two syntax trees, or of a tree and tokens: copies in another arena, whether tokens are those of a tree, and whether trees
//! are equal.
#![tactic(auto)]

mod tree_copies;
mod tree_equality;
mod tree_yields;

pub use tree_copies::copy_tree;
pub use tree_equality::{equal_tree, same_tree};
pub use tree_yields::yields;
