//! Types the trees of a C unit.
#![tactic(auto)]

// lists and entries
mod entries;
mod items;
mod number_stack;
mod positions;

// names, tags and structures in force
mod members;
mod names;
mod scopes;
mod structs;
mod tags;

// storage and faults
mod faults;
mod statics;
mod storage;

// what declarations say
mod declarators;
mod declared;
mod mentions;
mod specified;

// nodes and their checks
mod checks;
mod operands;
mod roles;
mod visit;

// functions and units
mod functions;
mod units;

pub use faults::TypeFault;
pub use units::type_unit;
