//! Trees and types of a unit as matching sees them: level by level, and whether two are equal.
#![tactic(auto, using(c_tree::proofs::Rows::nodes_out, c_tree::proofs::Rows::nodes_roll, crate::proofs::TreeLevels::Apart::heads_apart))]

// levels of trees, and types
mod matched_types;
mod tree_levels;

// equal heads and trees
mod comparison;
mod same_heads;

pub use comparison::{same_arguments, same_subject};
pub use matched_types::{is_named_type, is_written_type};
pub use same_heads::{same_front, same_leaf, same_one, same_two};
pub use tree_levels::{
    Front, Leaf, Level, One, Two, are_written, inner, is_expression, level_of, spelling,
    subject_type, type_of, written_constant,
};
