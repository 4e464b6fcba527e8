//! What the command does: the files of each kind, their reports, what is measured of a generated program, the plan of what is due,
//! and its writing.
#![tactic(auto)]

// requests and kinds of files
mod kinds;
mod request;
mod words;

// lines and status
mod lines;
mod refusal;
mod rendering;
mod statistics;
mod status;

// files and their reports
mod checker_reports;
mod judged_files;
mod outcome;
mod reported;

// generated programs
mod generated_program;
mod generation;
mod measuring;

// the whole run
mod plan;
mod program;
mod write_out;

pub use program::run;
pub use request::{Request, WordsFault, read_words};
pub use status::Status;
