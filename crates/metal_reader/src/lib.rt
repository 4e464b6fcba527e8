//! Reads checkers, from their tokens to the machine that they are or to the first fault that they have and its place.
#![tactic(auto)]

// faults and places of rules
mod metal_faults;
mod metal_positions;

// reading of checkers
mod reading;

pub use metal_faults::MetalFault;
pub use metal_numbers::Which;
pub use metal_positions::{rule_place, rules_are_counted};
pub use reading::read_machine;
