//! The typing of C: the type of each expression, the variable behind each name, the tags, and the first fault of a unit, as
//! definitions over syntax trees; and the proofs on them that the code which types a unit rests on.
#![tactic(auto)]

mod theorems;

pub use theorems::{
    by_case, cells_are_right, faults_are_unique, functions_by_case, numbers_differ,
    places_are_typed, scopes_stay, typed_has_no_fault, typed_or_at_fault, units_by_case,
};
