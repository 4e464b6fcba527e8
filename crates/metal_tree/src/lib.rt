//! What a checker is once it is read: its holes, states and rules, and what holds of every one.
#![tactic(auto)]

// holes and states
mod holes;
mod states;

// rules of a checker
mod messages;
mod patterns;
mod rules;

// the whole checker
mod machine;
mod metal_machines;

pub use holes::{BaseType, HoleDecl, HoleType, NamedType};
pub use machine::Machine;
pub use messages::{Action, Piece};
pub use patterns::{Alternative, Callout, CalloutRow, Item, Pattern};
pub use rules::{Dest, FIRST_NAMED, Rule, START, STOP, Source, Target};
pub use states::States;
