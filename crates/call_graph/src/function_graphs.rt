//! The flow graph of each function of a program.
#![tactic(auto)]

mod closing;
mod facts;
mod graphs;
mod unit_facts;

pub use graphs::build;
pub use unit_facts::UnitFacts;
