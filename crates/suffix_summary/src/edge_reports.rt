//! What path edges show: the reports of the alternatives with an action that are taken at their blocks.

mod edges;
mod said_reports;

pub(crate) use edges::all_shown;
