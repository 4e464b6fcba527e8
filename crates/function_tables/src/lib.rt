//! What an engine asks of a program under a checker, computed before any tuple flows: graphs, the rules of each event, followed calls,
//! followed objects and roots, all by number.
#![tactic(auto)]

// the graphs, which no checker changes
mod graphs;

// tables of blocks and functions
mod blocks;
mod events;
mod table;

// tables of a program
mod engine_tables;
mod tables;

pub use engine_tables::{Frame, Tables, callee_at, end_at, item};
pub use graphs::build_graphs;
pub use table::{BlockTable, FunctionTable};
pub use tables::build_tables;
