//! What path edges show: the reports of the rules with an action that are taken while an edge's tuple crosses the events of its block.

mod edges;
mod taken_reports;

pub use edges::{all_shown, shown};
