//! Reads declarations, statements and translation units of C.
#![tactic(auto)]

// faults and tokens in front
mod fault;
mod front;

// parts and their nodes
mod declaration_nodes;
mod parts;
mod statement_nodes;
mod tagged_nodes;

// names, labels and definitions
mod control;
mod declared;
mod definitions;
mod labels;

// specifiers with their bodies
mod members;
mod specifiers;
mod tagged;

// declarations and initial values
mod declarations;
mod initialized;
mod initials;

// statements by their kinds
mod blocks;
mod jumps;
mod loops;
mod selections;
mod statements;

// external definitions and units
mod functions;
mod units;

pub use fault::ParseFault;
pub use units::read_unit;
