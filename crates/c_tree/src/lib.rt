//! Tokens, places and syntax trees of C, from which every other part of the checker reads, what events and patterns are about, and which
//! tokens a tree has.
#![tactic(auto, using(crate::proofs::Rows::nodes_out))]

// tokens
mod keyword;
mod place;
mod punctuator;
mod token;

// trees
mod declaration;
mod expression;
mod operator;
mod statement;
mod tree;

// what is asked of trees
mod alike;
mod heights;
mod passed_tokens;
mod path_subjects;

pub use alike::{same_tag, same_token, same_tokens};
pub use declaration::{Declarator, Initializer, Outer, Part, Specifier};
pub use expression::{Operation, Primary};
pub use heights::height;
pub use keyword::Keyword;
pub use operator::{AssignOp, BinaryOp, StructOrUnion, UnaryOp};
pub use passed_tokens::tree_tokens;
pub use path_subjects::{Subject, trees_stand_at_their_first_tokens};
pub use place::Place;
pub use punctuator::Punctuator;
pub use statement::{Iteration, Jump, Statement};
pub use token::{FloatEnd, Mark, Token, TokenKind};
pub use tree::{Arena, Kind, Tree, Trees, first_token};
