//! What every engine needs to hand out its reports: the unit of a function, and why the reports of a checker, in order and each once, are the
//! list that is promised.
#![tactic(auto)]

mod function_units;

pub use function_units::unit_of;
