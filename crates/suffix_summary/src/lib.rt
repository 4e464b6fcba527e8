//! The exact analysis of a program, over numbers: the rows of its tables, the path edges to which these are tabulated, what they show, and what is
//! found under one checker: its list of reports, and its log over all objects that are relevant.
#![tactic(auto)]

// the rows of a program, and the reports of its edges
mod edge_reports;
mod known_tables;
mod standing_rows;
mod tabulated_reports;

// objects that are followed
mod followed_sets;
mod met_states;

// reports of a checker
mod checked_programs;
mod checker_reports;

// its reports and its log
mod analysis;

pub use analysis::{Analysis, analyse};
pub use checker_reports::reports;
pub use function_tables::build_graphs;
