//! Trees of C as matching and comparing see them: level by level, the head of a tree and its parts, without parentheses.
//! What is asked of a level stands elsewhere.
#![tactic(auto, using(c_tree::proofs::Rows::nodes_out, c_tree::proofs::Rows::nodes_roll))]

mod heads;
mod levels;
mod spellings;
mod subjects;

pub use heads::{Front, Leaf, Level, One, Two};
pub use levels::{constant, is_braced, level_of, type_of};
pub use spellings::{are_written, spelling, written_constant};
pub use subjects::{inner, is_expression, subject_type};
