//! Where the rules of checkers begin.

mod places;
mod theorems;

pub use places::rule_place;
pub use theorems::rules_are_counted;
