//! From the text of a checker to its machine: what it declares, what each rule is asked, and the numbers of its holes and states.
#![tactic(auto)]

// declarations and rules of checkers
mod metal_declared;
mod metal_rules;

// numbers of holes and states
mod numbering;
mod numbers;

// making of machines
mod metal_building;

pub use metal_building::{Builder, builder_of, made_of};
pub use metal_declared::{Declared, DeclaredHole, Which, holes_of, passing, repeated};
pub use metal_rules::{
    is_bad_source, is_bad_split, lacks_variable, names_two_variables, unknown_callout,
};
pub use numbering::{names_of, variables_among};
pub use numbers::Numbering;
