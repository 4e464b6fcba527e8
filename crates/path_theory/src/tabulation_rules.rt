//! The rules of tabulation as rules of a least set, for an engine that works off one path edge after the other, with the proofs that
//! the least set has exactly the path edges and shows exactly the reports of all paths.

mod theorems;

pub use theorems::{tabulated_edges_are_realised, tabulated_reports_are_those_of_paths};
