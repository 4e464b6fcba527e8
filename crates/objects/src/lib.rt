//! Access paths: the objects that expressions of C name, as values of the program.
#![tactic(auto)]

// variables and steps
mod selector;
mod steps;
mod variables;

// objects, origins and paths
mod keys;
mod object;
mod origin;
mod paths;

// text and trees of objects
mod pieces;
mod text;
mod trees;

pub use object::{Object, copy, is_object, is_static, mentions, variable};
pub use origin::Origin;
pub use paths::{append, begins_with, rebase, replaced, rest};
pub use selector::Selector;
pub use steps::{are_static, has_access, is_indexed_by};
pub use text::write_text;
pub use trees::object_of;
pub use variables::{is_static_var, same_var};
