//! Tabulation that follows some objects alone: it shows the reports of all paths.

mod theorems;

pub use theorems::{masked_edges_are_realised, masked_reports_are_those_of_paths};
