//! A worked instance of the theory of paths: a checker of locks over a program with two roots, one of which calls itself.
#![tactic(auto)]

// the checker and the program
mod checker;
mod program;

// steps and the exact log
mod log;
mod steps;

pub use checker::{Event, Interrupts, LockState, Report, Variable};
pub use log::{log_is_exact, reports_by_computation};
pub use program::{Block, CallSite, Function};
pub use steps::{Tuple, around_call, begins_own_frame, block_behind, handed_back, still_locked};
