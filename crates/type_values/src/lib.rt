//! Types and variables of C, kept beside the trees of a unit, what operators make of types, and the words of the basic ones.
#![tactic(auto)]

// types and their words
mod arithmetic;
mod basic_types;
mod types;

// units and variables
mod unit;
mod vars;

// types of constants and results
mod constants;
mod operators;

pub use arithmetic::Arithmetic;
pub use basic_types::{Basic, basic_type, is_basic, same_words};
pub use constants::{constant_type, string_type};
pub use operators::{chosen, combined, converted, difference, indexed, sum};
pub use types::{Ty, same_type};
pub use unit::Unit;
pub use vars::Var;
