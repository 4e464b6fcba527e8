//! Reporters: what takes reports and renders them, in the styles `table` and `json`, and the line of a report that the command
//! prints of its own.

mod chosen;
mod json;
mod line;
mod pieces;
mod reporter;
mod table;

pub use chosen::{place_of, render_at};
pub use json::JsonLines;
pub use line::write_line;
pub use reporter::Reporter;
pub use table::Table;
