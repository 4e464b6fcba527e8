//! What a report is, in which order reports stand, lists of them, and what takes reports and renders them, in the styles `table` and `json`.
#![tactic(auto)]

// reports and their order
mod order;
mod report;

// lists and reporters
mod report_lists;
mod reporters;

pub use report::Report;
pub use report_lists::sorted;
pub use reporters::{JsonLines, Reporter, Table, place_of, render_at, write_line};
