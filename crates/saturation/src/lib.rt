//! The exact analysis of a program: a set of path edges that is saturated under the rules of tabulation, what these show, and the list of
//! reports of one checker.
#![tactic(auto)]

// path edges and their reports
mod edge_reports;
mod tabulation_engine;

// reports of a checker
mod analysis;
mod checked_programs;

// objects that are followed
mod followed_sets;
mod met_states;

pub use analysis::analyse;
pub use edge_reports::shown;
