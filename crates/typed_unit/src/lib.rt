//! Translation units with the types of their expressions, the variables behind their names and the functions that they define, and where
//! their parts stand.
#![tactic(auto)]

// functions and typed nodes
mod functions;
mod table;
mod typed_unit;

// places in a unit
mod token_search;
mod unit_places;

pub use functions::TypedFunction;
pub use table::{Cell, Table};
pub use token_search::from_number;
pub use typed_unit::TypedUnit;
pub use unit_places::{
    bodies_stand, declarators_are_typed, expressions_are_typed, facts_agree, functions_stand,
    items_stand, next_stands, nodes_stand, parts_stand, parts_stand_by_case, trees_stand,
    typed_functions_stand,
};
