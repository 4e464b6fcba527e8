//! Reads the clauses of checkers: their text as it is written.
#![tactic(auto)]

// faults and parts of clauses
mod fault;
mod metal_parts;

// rules of a section
mod patterns;
mod sections;

// clauses of a text
mod clauses;
mod contents;
mod cuts;

pub use clauses::read_clauses;
pub use cuts::open_behind;
pub use fault::ClauseFault;
